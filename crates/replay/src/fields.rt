// The entries on varints, numbers, keys and single fields.
use super::lent::{FILL_BYTE, Part};
use super::line::Words;
use super::{lent, letter, line};

// The longest buffer that a varint or a key is put into.
const PUT_ROOM: usize = 64;

// A tag, or a last tag. The list has none of 2^32 or more.
pub(crate) fn tag_of(w: u64) -> u32 {
    (w % 0x1_0000_0000) as u32
}

pub(crate) fn ask_varint(letter: u8, s: &[u8], words: &Words, ours: &mut Words) -> usize {
    let at = words[0] as usize;
    if letter == letter::DECODE_VARINT {
        let r = capgauze_c::capgauze_decode_varint(s, at);
        return lent::four(ours, r.number, r.value, r.place, r.bytes);
    }
    let r = capgauze_c::capgauze_decode_varint_capped(s, at, words[1] as usize);
    lent::four(ours, r.number, r.value, r.place, r.bytes)
}

// A signed value of its two words.
fn signed(sign: u64, size: u64) -> i64 {
    let h = (size % 0x8000_0000_0000_0000) as i64;
    if sign == 0 { h } else { -h - 1 }
}

// The two words of a signed value.
fn signed_words(v: i64, ours: &mut Words) -> usize {
    if 0 <= v {
        return lent::two(ours, 0, v as u64);
    }
    lent::two(ours, 1, (-(v + 1)) as u64)
}

pub(crate) fn ask_number(letter: u8, words: &Words, ours: &mut Words) -> usize {
    match letter {
        letter::ENCODED_LEN_VARINT => lent::keep(
            ours,
            0,
            capgauze_c::capgauze_encoded_len_varint(words[0]),
        ),
        letter::TO_UNSIGNED => lent::keep(
            ours,
            0,
            capgauze_c::capgauze_i64_to_unsigned(signed(words[0], words[1])),
        ),
        letter::TO_SIGNED => signed_words(capgauze_c::capgauze_u64_to_signed(words[0]), ours),
        _ => {
            let r = capgauze_c::capgauze_key_len(tag_of(words[0]), tag_of(words[1]));
            lent::two(ours, r.number, r.value)
        }
    }
}

// Where the bytes stand: at the buffer's front, or at its end.
fn start_of(back: bool, length: usize, room: usize) -> usize {
    if back {
        if length <= room {
            return room - length;
        }
    }
    0
}

// What a writer of a varint or a key answered, and the bytes.
fn put_told(back: bool, number: u64, length: u64, buf: &[u8], ours: &mut Words) -> usize {
    lent::two(ours, number, length);
    let n = length as usize;
    let part = Part {
        start: start_of(back, n, buf.len()),
        length: n,
        fill: line::wide(FILL_BYTE),
    };
    lent::look_at_bytes(buf, part, ours, 2).words
}

fn put_into(letter: u8, words: &Words, buf: &mut [u8], ours: &mut Words) -> usize {
    let last = tag_of(words[0]);
    let tag = tag_of(words[1]);
    match letter {
        letter::ENCODE_VARINT => {
            let r = capgauze_c::capgauze_encode_varint(words[0], buf);
            put_told(false, r.number, r.value, buf, ours)
        }
        letter::PREPEND_VARINT => {
            let r = capgauze_c::capgauze_prepend_varint(words[0], buf);
            put_told(true, r.number, r.value, buf, ours)
        }
        letter::ENCODE_KEY => {
            let r = capgauze_c::capgauze_encode_key(last, tag, words[2], buf);
            put_told(false, r.number, r.value, buf, ours)
        }
        _ => {
            let r = capgauze_c::capgauze_prepend_key(last, tag, words[2], buf);
            put_told(true, r.number, r.value, buf, ours)
        }
    }
}

pub(crate) fn ask_put(letter: u8, room: u64, words: &Words, ours: &mut Words) -> usize {
    let n = room as usize;
    let mut buf = [FILL_BYTE; PUT_ROOM];
    if PUT_ROOM < n {
        return 0;
    }
    put_into(letter, words, &mut buf[0..n], ours)
}

pub(crate) fn ask_field(letter: u8, s: &[u8], words: &Words, ours: &mut Words) -> usize {
    let at = words[0] as usize;
    let end = words[1] as usize;
    match letter {
        letter::DECODE_KEY => {
            let r = capgauze_c::capgauze_decode_key(s, at, end, tag_of(words[2]));
            let n = lent::four(ours, r.number, r.tag, r.kind, r.place);
            lent::fault(ours, n, r.failing, r.bytes)
        }
        letter::DECODE_VALUE => {
            let r = capgauze_c::capgauze_decode_value(s, at, end, words[2]);
            let n = lent::four(ours, r.number, r.value, r.length, r.place);
            lent::fault(ours, n, r.failing, r.bytes)
        }
        letter::SKIP_FIELD => {
            let r = capgauze_c::capgauze_skip_field(s, at, end, words[2]);
            let n = lent::two(ours, r.number, r.place);
            lent::fault(ours, n, r.failing, r.bytes)
        }
        _ => ask_step(s, at, end, tag_of(words[2]), ours),
    }
}

fn ask_step(s: &[u8], at: usize, end: usize, last: u32, ours: &mut Words) -> usize {
    let r = capgauze_c::capgauze_step_at(s, at, end, last);
    lent::four(ours, r.number, r.found, r.tag, r.kind);
    ours[4] = r.value;
    ours[5] = r.length;
    ours[6] = r.place;
    lent::fault(ours, 7, r.failing, r.bytes)
}
