// Where a read that failed began, and how many bytes of a varint it looked at: told from the refusal and its place, so that no reader has to carry it.
#![tactic(auto)]

ghost use Rattle.std.specs.Prelude.{◌≡◌, eqb};
ghost use Rattle.wire.specs.Numbers.{number_of};
ghost use Rattle.wire.specs.declared.WireType.TheVariants.{LengthDelimited};
ghost use Rattle.fault.specs.Short.{up_to_nine, key_short, value_short, fault_at};

use wire::{Fault, KeyFound, Refusal, ValueFound, VarintFound, WireType};

// How many bytes a refused varint looked at, in a slice of so many: those up to the slice's end, or nine. An end before it is not asked.
pub fn looked(len: usize, at: usize) -> usize
    ensures { result ≡ up_to_nine len at }
{
    if len <= at {
        return 0;
    }
    let left = len - at;
    if 9 < left {
        return 9;
    }
    left
}

// Whether a tag was too large, which is no varint's failure.
fn overflowed(why: Refusal) -> bool
    ensures { result ≡ eqb (number_of why) 3 }
{
    wire::number_of(why) == 3
}

// Of a key that is refused, in a slice of so many bytes.
pub fn key_fault(why: Refusal, len: usize, at: usize) -> Fault
    ensures { result ≡ key_short why len at }
{
    if overflowed(why) {
        return Fault {
            place: at,
            bytes: 0,
        };
    }
    Fault {
        place: at,
        bytes: looked(len, at),
    }
}

// Of a payload that is refused: a length that can be read is too long, and its first byte is named.
fn length_fault(s: &[u8], at: usize) -> Fault
    ensures { result ≡ value_short s.now at LengthDelimited }
{
    match varint_read::decode_varint(s, at) {
        VarintFound::Got(_, _) => Fault {
            place: at,
            bytes: 0,
        },
        VarintFound::Refused(_) => Fault {
            place: at,
            bytes: looked(s.len(), at),
        },
    }
}

// Of a value of a wire type that is refused.
pub fn value_fault(s: &[u8], at: usize, wire: WireType) -> Fault
    ensures { result ≡ value_short s.now at wire }
{
    match wire {
        WireType::Varint => Fault {
            place: at,
            bytes: looked(s.len(), at),
        },
        WireType::LengthDelimited => length_fault(s, at),
        WireType::ThirtyTwoBit => Fault {
            place: at,
            bytes: 0,
        },
        WireType::SixtyFourBit => Fault {
            place: at,
            bytes: 0,
        },
    }
}

// Of a step that is refused at a place, or of a message that is refused with it: what stands there is read once more, behind tag 0. A field that can be read
// was the last one before the loop's top, which names the place reached.
// INLINE: two callers, both where a read is refused, so that it stays out of line.
pub fn fault_at(s: &[u8], at: usize, end: usize, why: Refusal) -> Fault
    ensures { result ≡ fault_at s.now end why at }
{
    if end <= at {
        return Fault {
            place: at,
            bytes: 0,
        };
    }
    if overflowed(why) {
        return Fault {
            place: at,
            bytes: 0,
        };
    }
    match field_key::decode_key(s, at, end, 0) {
        KeyFound::Refused(_) => key_fault(why, s.len(), at),
        KeyFound::Got(key, q) => {
            let wire = key.wire;
            match field_value::decode_value(s, q, end, wire) {
                ValueFound::Refused(_) => value_fault(s, q, wire),
                ValueFound::Got(_, next) => Fault {
                    place: next,
                    bytes: 0,
                },
            }
        }
    }
}
