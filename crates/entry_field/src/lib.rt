// The entries on values and single fields. Each tests its refusals in their order and hands the rest to a core.
#![tactic(auto)]

ghost use Rattle.std.specs.Prelude.{◌≡◌};
ghost use Rattle.entry_field.specs.Fields.{decode_value, skip_field, step_entry};
ghost use Rattle.entry_field.specs.Test.{more_entry};

use entry_answer::{Gated, More, Skipped, Step, ValueRead};
use wire::{Fault, Field, Reached, Refusal, Stepped, ValueFound, WireType};

// The value of a wire type at a place, under an end. Only a varint's place after it may be past the end.
pub fn decode_value(s: &[u8], at: usize, end: usize, wire: WireType) -> ValueRead
    ensures { result ≡ decode_value s.now at end wire }
{
    if let Gated::Shut(r) = entry_answer::gate(s.len(), at, end) {
        let nowhere = Fault { place: 0, bytes: 0 };
        return ValueRead::Refused(r, at, nowhere);
    }
    match field_value::decode_value(s, at, end, wire) {
        ValueFound::Got(v, next) => ValueRead::Got(v, next),
        ValueFound::Refused(r) => ValueRead::Refused(r, at, fault::value_fault(s, at, wire)),
    }
}

// The place behind a value of a wire type and all fields of the same tag that follow it. It may be past the end.
pub fn skip_field(s: &[u8], at: usize, end: usize, wire: WireType) -> Skipped
    ensures { result ≡ skip_field s.now at end wire }
{
    if let Gated::Shut(r) = entry_answer::gate(s.len(), at, end) {
        let nowhere = Fault { place: 0, bytes: 0 };
        return Skipped::Refused(r, at, nowhere);
    }
    match field_skip::skip_field(s, at, end, wire) {
        Reached::To(q) => Skipped::To(q),
        Reached::Refused(r, f) => Skipped::Refused(r, at, f),
    }
}

// One step of a message: a field and the place after it, which may be past the end; or the end.
pub fn step_at(s: &[u8], at: usize, end: usize, last: u32) -> Step
    ensures { result ≡ step_entry s.now at end last }
{
    if let Gated::Shut(r) = entry_answer::gate(s.len(), at, end) {
        let nowhere = Fault { place: 0, bytes: 0 };
        return Step::Refused(r, at, last, nowhere);
    }
    match field::step_from(s, at, end, last) {
        Stepped::Field(f, next) => Step::Field(f, next),
        Stepped::End => Step::End,
        Stepped::Refused(r) => Step::Refused(r, at, last, fault::fault_at(s, at, end, r)),
    }
}

// Whether a step may be taken at a place: the tests of a step that come before its field.
pub fn more_at(s: &[u8], at: usize, end: usize) -> More
    ensures { result ≡ more_entry s.now at end }
{
    if let Gated::Shut(r) = entry_answer::gate(s.len(), at, end) {
        return More::Refused(r);
    }
    if at < end {
        return More::Yes;
    }
    if at == end {
        return More::No;
    }
    More::Refused(Refusal::Truncated)
}
