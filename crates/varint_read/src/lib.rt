// Varints read at a place of a slice. From src/encoding/mod.rs (the looped twins of the varint functions, `Capped::decode_varint`) of bilrost.
#![tactic(auto)]

ghost use Rattle.std.specs.Prelude.{◌≡◌, ◌≤◌, ◌<◌, length, get_or};
ghost use Rattle.wire.specs.Reading.{varint_at, capped_at};

use wire::{Refusal, VarintFound};

// A varint that its first byte does not end: up to eight bytes whose sum cannot be too large, and a ninth.
fn decode_long(s: &[u8], at: usize) -> VarintFound
    requires { (at < length s.now) × (128 ≤ get_or s.now at 0) }
    ensures { result ≡ varint_at s.now at }
{
    let mut value = s[at] as u64;
    let mut scale: u64 = 128;
    let mut left: usize = 7;
    let mut p = at + 1;
    while 0 < left {
        if s.len() <= p {
            return VarintFound::Refused(Refusal::Truncated);
        }
        let b = s[p] as u64;
        value += b * scale;
        p += 1;
        if b < 128 {
            return VarintFound::Got(value, p);
        }
        scale *= 128;
        left -= 1;
    }
    if s.len() <= p {
        return VarintFound::Refused(Refusal::Truncated);
    }
    let b = s[p] as u64;
    if 255 < value / 0x100_0000_0000_0000 + b {
        return VarintFound::Refused(Refusal::InvalidVarint);
    }
    VarintFound::Got(value + b * 0x100_0000_0000_0000, p + 1)
}

// A varint at a place, read from the slice as far as it goes. Most are one byte or two.
pub fn decode_varint(s: &[u8], at: usize) -> VarintFound
    ensures { result ≡ varint_at s.now at }
{
    if s.len() <= at {
        return VarintFound::Refused(Refusal::Truncated);
    }
    let b = s[at] as u64;
    if b < 128 {
        return VarintFound::Got(b, at + 1);
    }
    if 1 < s.len() - at {
        let c = s[at + 1] as u64;
        if c < 128 {
            return VarintFound::Got(b + 128 * c, at + 2);
        }
    }
    decode_long(s, at)
}

// A varint of a key or a value: read beyond the end too, and Truncated if it is invalid and its nine bytes pass the end.
// INLINE: two bytes and three are read here, and not by a call: reading SN takes 8 % less instructions, T 6 %.
pub fn decode_varint_capped(s: &[u8], at: usize, end: usize) -> VarintFound
    ensures { result ≡ capped_at s.now end at }
{
    if s.len() <= at {
        return VarintFound::Refused(Refusal::Truncated);
    }
    let b = s[at] as u64;
    if b < 128 {
        return VarintFound::Got(b, at + 1);
    }
    if 2 < s.len() - at {
        let second = s[at + 1] as u64;
        if second < 128 {
            return VarintFound::Got(b + 128 * second, at + 2);
        }
        let third = s[at + 2] as u64;
        if third < 128 {
            return VarintFound::Got(b + 128 * second + 16384 * third, at + 3);
        }
    }
    match decode_long(s, at) {
        VarintFound::Got(v, next) => VarintFound::Got(v, next),
        VarintFound::Refused(r) => {
            if end <= at {
                return VarintFound::Refused(Refusal::Truncated);
            }
            if end - at < 9 {
                return VarintFound::Refused(Refusal::Truncated);
            }
            VarintFound::Refused(r)
        }
    }
}
