// Fields passed over: a value, and every field of the same tag behind it. From src/encoding/mod.rs (`skip_field`) of bilrost.
#![tactic(auto)]

ghost use Rattle.std.specs.Prelude.{◌≡◌, ◌+◌};
ghost use Rattle.wire.specs.Reading.{wire_of};
ghost use Rattle.wire.specs.Skipping.{past_at, skip_at};
ghost use Rattle.field_skip.specs.SkippingLaws.{up_to};
ghost use Rattle.field_skip.specs.Repeated.{next_key};

use wire::{Fault, Reached, Refusal, VarintFound, WireType};

// So many bytes from a place on are passed if a slice of len bytes has them. The end is not asked. Else the value fails, which begins at a place of its own.
fn past_bytes(len: usize, from: usize, at: usize, n: u64) -> Reached
    ensures { result ≡ up_to len from (at + n) }
{
    let failed = Fault {
        place: from,
        bytes: 0,
    };
    if len < at {
        return Reached::Refused(Refusal::Truncated, failed);
    }
    if ((len - at) as u64) < n {
        return Reached::Refused(Refusal::Truncated, failed);
    }
    let next = at + (n as usize);
    Reached::To(next)
}

// A value, by its kind. A length too is read as a varint under the end.
fn past_value(s: &[u8], at: usize, end: usize, kind: u64) -> Reached
    ensures { result ≡ past_at s.now end at (wire_of kind) }
{
    if kind == 2 {
        return past_bytes(s.len(), at, at, 4);
    }
    if 2 < kind {
        return past_bytes(s.len(), at, at, 8);
    }
    match varint_read::decode_varint_capped(s, at, end) {
        VarintFound::Refused(r) => Reached::Refused(
            r,
            Fault {
                place: at,
                bytes: fault::looked(s.len(), at),
            },
        ),
        VarintFound::Got(n, q) => {
            if kind == 0 {
                return Reached::To(q);
            }
            past_bytes(s.len(), at, q, n)
        }
    }
}

// The byte at a place if it stands before the end; else 4, which is no key of the same tag.
fn next_key(s: &[u8], at: usize, end: usize) -> u64
    ensures { result ≡ next_key s.now end at }
{
    if end <= at {
        return 4;
    }
    if s.len() <= at {
        return 4;
    }
    s[at] as u64
}

// A value of a wire type, and every field of the same tag behind it: a key below 4 adds nothing to the tag, and is a wire type.
pub fn skip_field(s: &[u8], at: usize, end: usize, wire: WireType) -> Reached
    ensures { result ≡ skip_at s.now end at wire }
{
    let mut kind = field_key::wire_number(wire);
    let mut p = at;
    let reached = loop {
        match past_value(s, p, end, kind) {
            Reached::Refused(r, f) => return Reached::Refused(r, f),
            Reached::To(q) => {
                kind = next_key(s, q, end);
                if 3 < kind {
                    break q;
                }
                p = q + 1;
            }
        }
    };
    Reached::To(reached)
}
