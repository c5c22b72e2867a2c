// A field's value under a cap, by its wire type. From src/encoding/mod.rs (`Capped`) and opaque.rs of bilrost.
#![tactic(auto)]

ghost use Rattle.std.specs.Prelude.{◌≡◌, ◌∷◌, [], ◌+◌, ◌≤◌, length, take, drop};
ghost use Rattle.wire.specs.Fixed.{number};
ghost use Rattle.wire.specs.Reading.{value_at};
ghost use Rattle.field_value.specs.Inside.{inside};
ghost use Rattle.wire.specs.declared.WireType.TheVariants.{Varint, LengthDelimited, ThirtyTwoBit, SixtyFourBit};

use wire::{Refusal, Value, ValueFound, VarintFound, WireType};

// A number, as a varint.
pub fn number_at(s: &[u8], at: usize, end: usize) -> ValueFound
    ensures { result ≡ value_at s.now end at Varint }
{
    match varint_read::decode_varint_capped(s, at, end) {
        VarintFound::Got(v, next) => ValueFound::Got(Value::Varint(v), next),
        VarintFound::Refused(r) => ValueFound::Refused(r),
    }
}

// A payload behind its length, in the slice and before the end.
pub fn payload_at(s: &[u8], at: usize, end: usize) -> ValueFound
    ensures { result ≡ value_at s.now end at LengthDelimited }
{
    match varint_read::decode_varint(s, at) {
        VarintFound::Refused(why) => ValueFound::Refused(why),
        VarintFound::Got(n, q) => {
            if ((s.len() - q) as u64) < n {
                return ValueFound::Refused(Refusal::Truncated);
            }
            let next = q + (n as usize);
            if end < next {
                return ValueFound::Refused(Refusal::Truncated);
            }
            ValueFound::Got(Value::LengthDelimited(q, n as usize), next)
        }
    }
}

// Four bytes as a number, lowest first.
pub fn four_bytes(a: u8, b: u8, c: u8, d: u8) -> u64
    ensures { result ≡ number (a ∷ b ∷ c ∷ d ∷ []) }
{
    (a as u64) + (b as u64) * 0x100 + (c as u64) * 0x1_0000 + (d as u64) * 0x100_0000
}

// The number of the four bytes at a place.
fn four_from(s: &[u8], at: usize) -> u32
    requires { at + 4 ≤ length s.now }
    ensures { result ≡ number (take 4 (drop at s.now)) }
{
    four_bytes(s[at], s[at + 1], s[at + 2], s[at + 3]) as u32
}

// Whether n bytes from a place on stand in a slice of so many, and before the end.
fn has(len: usize, at: usize, end: usize, n: usize) -> bool
    ensures { result ≡ inside len end (at + n) }
{
    if len < at {
        return false;
    }
    if len - at < n {
        return false;
    }
    at + n <= end
}

// A value of four bytes.
pub fn four_at(s: &[u8], at: usize, end: usize) -> ValueFound
    ensures { result ≡ value_at s.now end at ThirtyTwoBit }
{
    if has(s.len(), at, end, 4) {
        return ValueFound::Got(Value::ThirtyTwoBit(four_from(s, at)), at + 4);
    }
    ValueFound::Refused(Refusal::Truncated)
}

// A value of eight bytes.
pub fn eight_at(s: &[u8], at: usize, end: usize) -> ValueFound
    ensures { result ≡ value_at s.now end at SixtyFourBit }
{
    if has(s.len(), at, end, 8) {
        let low = four_from(s, at) as u64;
        let high = four_from(s, at + 4) as u64;
        return ValueFound::Got(Value::SixtyFourBit(low + high * 0x1_0000_0000), at + 8);
    }
    ValueFound::Refused(Refusal::Truncated)
}

// A value of a wire type.
pub fn decode_value(s: &[u8], at: usize, end: usize, wire: WireType) -> ValueFound
    ensures { result ≡ value_at s.now end at wire }
{
    match wire {
        WireType::Varint => number_at(s, at, end),
        WireType::LengthDelimited => payload_at(s, at, end),
        WireType::ThirtyTwoBit => four_at(s, at, end),
        WireType::SixtyFourBit => eight_at(s, at, end),
    }
}
