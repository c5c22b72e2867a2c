// One field under a cap: its key, then its value; and one step of a message. From src/encoding/mod.rs and opaque.rs of bilrost.
#![tactic(auto)]

ghost use Rattle.std.specs.Prelude.{◌≡◌, ◌≤◌};
ghost use Rattle.wire.specs.Reading.{wire_of, value_at, field_at, step_at};

use wire::{Field, FieldFound, KeyFound, Refusal, Stepped, ValueFound};

// A value that is no number. All of them need a byte.
// INLINE: that test keeps the compiler from a table of jumps, with which X, whose types are in random order, takes 1.15 times as long.
fn value_behind(s: &[u8], at: usize, end: usize, kind: u64) -> ValueFound
    requires { 1 ≤ kind }
    ensures { result ≡ value_at s.now end at (wire_of kind) }
{
    if s.len() <= at {
        return ValueFound::Refused(Refusal::Truncated);
    }
    if kind == 1 {
        return field_value::payload_at(s, at, end);
    }
    if kind == 2 {
        return field_value::four_at(s, at, end);
    }
    field_value::eight_at(s, at, end)
}

// A key, then its value. The place after it may be past the end. This is for the message reader's loop; other callers take step_from.
// INLINE: it has one caller, so that it is folded into that loop; called, it takes 1.6 times the instructions. A number is told first: with the kind told by
// two tests, B takes 1.12 times the instructions, V1 1.06 times.
pub fn decode_field(s: &[u8], at: usize, end: usize, last: u32) -> FieldFound
    ensures { result ≡ field_at s.now end at last }
{
    match field_key::decode_key(s, at, end, last) {
        KeyFound::Refused(r) => FieldFound::Refused(r),
        KeyFound::Got(key, q) => {
            let wire = key.wire;
            let kind = field_key::wire_number(wire);
            let found = if kind == 0 {
                field_value::number_at(s, q, end)
            } else {
                value_behind(s, q, end, kind)
            };
            match found {
                ValueFound::Refused(r) => FieldFound::Refused(r),
                ValueFound::Got(v, next) => FieldFound::Got(
                    Field {
                        tag: key.tag,
                        value: v,
                    },
                    next,
                ),
            }
        }
    }
}

// One step of a message: before the end a field, at the end no more, past it Truncated.
pub fn step_from(s: &[u8], at: usize, end: usize, last: u32) -> Stepped
    ensures { result ≡ step_at s.now end at last }
{
    if at == end {
        return Stepped::End;
    }
    if end < at {
        return Stepped::Refused(Refusal::Truncated);
    }
    match field_key::decode_key(s, at, end, last) {
        KeyFound::Refused(r) => Stepped::Refused(r),
        KeyFound::Got(key, q) => {
            let wire = key.wire;
            match field_value::decode_value(s, q, end, wire) {
                ValueFound::Refused(r) => Stepped::Refused(r),
                ValueFound::Got(v, next) => Stepped::Field(
                    Field {
                        tag: key.tag,
                        value: v,
                    },
                    next,
                ),
            }
        }
    }
}

// The same for the walk over a message.
// INLINE: it has one caller, so that it is folded into the walk; the kind is told by two tests, where decode_value's match is a table of jumps. With a
// call for each field, whose answer comes back through memory, soundings take twice the instructions and lookups three times.
pub fn next_field(s: &[u8], from: usize, end: usize, last: u32) -> Stepped
    ensures { result ≡ step_at s.now end from last }
{
    if from == end {
        return Stepped::End;
    }
    if end < from {
        return Stepped::Refused(Refusal::Truncated);
    }
    match field_key::decode_key(s, from, end, last) {
        KeyFound::Refused(r) => Stepped::Refused(r),
        KeyFound::Got(key, place) => {
            let wire = key.wire;
            let kind = field_key::wire_number(wire);
            let value = if kind < 2 {
                if kind == 0 {
                    field_value::number_at(s, place, end)
                } else {
                    field_value::payload_at(s, place, end)
                }
            } else {
                if kind == 2 {
                    field_value::four_at(s, place, end)
                } else {
                    field_value::eight_at(s, place, end)
                }
            };
            match value {
                ValueFound::Refused(r) => Stepped::Refused(r),
                ValueFound::Got(v, next) => Stepped::Field(
                    Field {
                        tag: key.tag,
                        value: v,
                    },
                    next,
                ),
            }
        }
    }
}
