// Varints measured, put at a place of a buffer, prepended to one. From src/encoding/mod.rs (the looped twins of the varint functions) of
// bilrost.
#![tactic(auto)]

ghost use Rattle.std.specs.Prelude.{◌≡◌, ◌+◌, ◌≤◌, ◌<◌, length};
ghost use Rattle.std.proofs.lemmas.List.Edits.{sets};
ghost use Rattle.wire.specs.Varint.{encode};
ghost use Rattle.wire.specs.VarintLength.{limit_at};
ghost use Rattle.place.specs.Place.{put_at, prepend_at};

// The smallest numbers that are written as one byte, as two, and so on up to nine.
pub const VARINT_LIMIT: [u64; 9] = [
    0,
    0x80,
    0x4080,
    0x20_4080,
    0x1020_4080,
    0x8_1020_4080,
    0x408_1020_4080,
    0x2_0408_1020_4080,
    0x102_0408_1020_4080,
];

// The entry at an index; 0 behind the last.
pub fn varint_limit(i: usize) -> u64
    ensures { result ≡ limit_at i }
{
    if i < 9 {
        return VARINT_LIMIT[i];
    }
    0
}

const L0: u64 = VARINT_LIMIT[0];

const L1: u64 = VARINT_LIMIT[1];

const L2: u64 = VARINT_LIMIT[2];

const L3: u64 = VARINT_LIMIT[3];

const L4: u64 = VARINT_LIMIT[4];

const L5: u64 = VARINT_LIMIT[5];

const L6: u64 = VARINT_LIMIT[6];

const L7: u64 = VARINT_LIMIT[7];

const L8: u64 = VARINT_LIMIT[8];

// How many bytes a number is written as.
pub fn encoded_len_varint(v: u64) -> usize
    ensures { result ≡ length (encode v) }
{
    match v {
        L0..L1 => 1,
        L1..L2 => 2,
        L2..L3 => 3,
        L3..L4 => 4,
        L4..L5 => 5,
        L5..L6 => 6,
        L6..L7 => 7,
        L7..L8 => 8,
        _ => 9,
    }
}

// The same with no branch. The highest bit of v less a part in 128 tells between which limits v lies; the numbers are made odd so that the bound is exact and
// the last of them is not 0.
pub fn count_len(v: u64) -> usize
    ensures { result ≡ length (encode v) }
{
    let x = v - v % 2 + 1;
    let z = x - x / 128;
    let y = z - z % 2 + 1;
    (9 * (63 - u64::leading_zeros(y) as usize) + 72) / 64
}

// A number that is written as two bytes, where they have room.
fn put_two(buf: &mut [u8], at: usize, v: u64)
    requires { (128 ≤ v) × (v < 0x4080) × (at + 2 ≤ length buf.old) }
    ensures { buf.new ≡ sets buf.old at (encode v) }
{
    buf[at] = (128 + v % 128) as u8;
    buf[at + 1] = (v / 128 - 1) as u8;
}

// A number of any length.
fn put_long(buf: &mut [u8], at: usize, v: u64) -> usize
    ensures { record { next = result; buf = buf.new } ≡ put_at buf.old at (encode v) }
{
    if buf.len() < at {
        return at;
    }
    if buf.len() - at < encoded_len_varint(v) {
        return at;
    }
    let mut x = v;
    let mut p = at;
    let mut left: usize = 8;
    while 0 < left {
        if x < 128 {
            buf[p] = x as u8;
            return p + 1;
        }
        buf[p] = (128 + x % 128) as u8;
        x = x / 128 - 1;
        p += 1;
        left -= 1;
    }
    buf[p] = x as u8;
    p + 1
}

// A number's bytes from a place on, and the place after them; the place given, and nothing written, where they have no room.
pub fn put_varint(buf: &mut [u8], at: usize, v: u64) -> usize
    ensures { record { next = result; buf = buf.new } ≡ put_at buf.old at (encode v) }
{
    if v < 128 {
        if at < buf.len() {
            buf[at] = v as u8;
            return at + 1;
        }
        return at;
    }
    if v < L2 {
        if buf.len() < 2 {
            return at;
        }
        if buf.len() - 2 < at {
            return at;
        }
        put_two(buf, at, v);
        return at + 2;
    }
    put_long(buf, at, v)
}

// A number's bytes up to a place, and the place where they start; the place given, and nothing written, where they have no room.
pub fn prepend_varint(buf: &mut [u8], end: usize, v: u64) -> usize
    ensures { record { next = result; buf = buf.new } ≡ prepend_at buf.old end (encode v) }
{
    if buf.len() < end {
        return end;
    }
    if v < 128 {
        if end < 1 {
            return end;
        }
        buf[end - 1] = v as u8;
        return end - 1;
    }
    if v < L2 {
        if end < 2 {
            return end;
        }
        put_two(buf, end - 2, v);
        return end - 2;
    }
    let n = count_len(v);
    if end < n {
        return end;
    }
    put_long(buf, end - n, v);
    end - n
}
