// A field's key: its wire type, read under a cap, measured, put and prepended. From src/encoding/mod.rs (`WireType`, `Capped`, `decode_key`,
// `TagWriter`, `TagRevWriter`, `RuntimeTagMeasurer`) of bilrost.
#![tactic(auto)]

ghost use Rattle.std.specs.Prelude.{◌≡◌, ◌+◌, ◌-◌, ◌*◌, ◌%◌, length};
ghost use Rattle.place.specs.Place.{put_at, prepend_at};
ghost use Rattle.wire.specs.Numbers.{kind_of};
ghost use Rattle.wire.specs.Varint.{encode};
ghost use Rattle.wire.specs.Reading.{wire_of, key_at};

use wire::{Key, KeyFound, Refusal, VarintFound, WireType};

// The wire type that a key's last two bits name.
pub fn wire_type_of(key: u64) -> WireType
    ensures { result ≡ wire_of (key % 4) }
{
    match key % 4 {
        0 => WireType::Varint,
        1 => WireType::LengthDelimited,
        2 => WireType::ThirtyTwoBit,
        _ => WireType::SixtyFourBit,
    }
}

// The number of a wire type.
pub fn wire_number(wire: WireType) -> u64
    ensures { result ≡ kind_of wire }
{
    match wire {
        WireType::Varint => 0,
        WireType::LengthDelimited => 1,
        WireType::ThirtyTwoBit => 2,
        WireType::SixtyFourBit => 3,
    }
}

// How far a tag lies ahead of the last one; 0 if it doesn't.
fn ahead(last: u32, tag: u32) -> u64
    ensures { result ≡ tag - last }
{
    if last < tag { (tag - last) as u64 } else { 0 }
}

// The number that a key is.
fn key_of(last: u32, tag: u32, wire: WireType) -> u64
    ensures { result ≡ 4 * (tag - last) + kind_of wire }
{
    4 * ahead(last, tag) + wire_number(wire)
}

// How many bytes a key takes. The wire type is left out: it never changes the length.
pub fn key_len(last: u32, tag: u32) -> usize
    ensures { result ≡ length (encode (4 * (tag - last))) }
{
    varint_write::encoded_len_varint(4 * ahead(last, tag))
}

// A key's bytes from a place on, and the place after them; the place given, and nothing written, where they have no room.
pub fn put_key(buf: &mut [u8], at: usize, last: u32, tag: u32, wire: WireType) -> usize
    ensures { record { next = result; buf = buf.new } ≡ put_at buf.old at (encode (4 * (tag - last) + kind_of wire)) }
{
    varint_write::put_varint(buf, at, key_of(last, tag, wire))
}

// A key's bytes up to a place, and the place where they start; the place given, and nothing written, where they have no room.
pub fn prepend_key(buf: &mut [u8], end: usize, last: u32, tag: u32, wire: WireType) -> usize
    ensures { record { next = result; buf = buf.new } ≡ prepend_at buf.old end (encode (4 * (tag - last) + kind_of wire)) }
{
    varint_write::prepend_varint(buf, end, key_of(last, tag, wire))
}

// A key: its tag, its wire type and the place after it.
pub fn decode_key(s: &[u8], at: usize, end: usize, last: u32) -> KeyFound
    ensures { result ≡ key_at s.now end at last }
{
    match varint_read::decode_varint_capped(s, at, end) {
        VarintFound::Refused(r) => KeyFound::Refused(r),
        VarintFound::Got(key, next) => {
            let tag = (last as u64) + key / 4;
            if wire::LAST_TAG < tag {
                return KeyFound::Refused(Refusal::TagOverflowed);
            }
            KeyFound::Got(
                Key {
                    tag: tag as u32,
                    wire: wire_type_of(key),
                },
                next,
            )
        }
    }
}
