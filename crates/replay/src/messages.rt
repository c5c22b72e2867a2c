// The entries on messages and on tables.
use super::fields::tag_of;
use super::lent::{FILL_BYTE, FILL_WORD, Part, Seen};
use super::line::Words;
use super::{lent, letter, line};
use c_words::{LookupWords, PickWords, ReadWords};
use wire::{RECORD_WORDS, Refusal};

// The fields of a tag that an answer has room for.
const FIELDS: usize = 600;

// The answer with what was found behind its first words, or with the sum in place of that.
fn seen_or_sum(summed: bool, seen: Seen, ours: &mut Words, first: usize) -> usize {
    if summed {
        return lent::keep(ours, first, seen.sum);
    }
    seen.words
}

// Whether a letter's answer has the sum of what was lent, and not its words.
fn is_summed(letter: u8) -> bool {
    match letter {
        letter::READ_MESSAGE_SUM | letter::ENCODE_MESSAGE_SUM | letter::PREPEND_MESSAGE_SUM => true,
        _ => false,
    }
}

// Every word as it is before a call.
fn blank(table: &mut [u64]) {
    let mut i = 0;
    while i < table.len() {
        table[i] = FILL_WORD;
        i += 1;
    }
}

fn blank_bytes(buf: &mut [u8]) {
    let mut i = 0;
    while i < buf.len() {
        buf[i] = FILL_BYTE;
        i += 1;
    }
}

// The words of an accepted read's records.
fn record_words(number: u64, count: u64) -> usize {
    if 0 < number {
        return 0;
    }
    if 0xffff_ffff < count {
        return usize::MAX;
    }
    count as usize * RECORD_WORDS
}

fn read_told(letter: u8, r: ReadWords, table: &[u64], ours: &mut Words) -> usize {
    let n = lent::three(ours, r.number, r.place, r.count);
    let first = lent::fault(ours, n, r.failing, r.bytes);
    let part = Part {
        start: 0,
        length: record_words(r.number, r.count),
        fill: FILL_WORD,
    };
    let seen = lent::look_at_words(table, part, ours, first);
    seen_or_sum(is_summed(letter), seen, ours, first)
}

pub(crate) fn ask_read(
    letter: u8,
    s: &[u8],
    table: &mut [u64],
    words: &Words,
    ours: &mut Words,
) -> usize {
    blank(table);
    if letter == letter::READ_PAYLOAD {
        let r = capgauze_c::capgauze_read_payload(
            s, words[0], words[1], words[2], words[3], words[4], table,
        );
        return read_told(letter, r, table, ours);
    }
    let r = capgauze_c::capgauze_read_message(s, words[0] as usize, words[1] as usize, table);
    read_told(letter, r, table, ours)
}

pub(crate) fn ask_payload(s: &[u8], words: &Words, ours: &mut Words) -> usize {
    let r = capgauze_c::capgauze_payload_of(s, words[0], words[1], words[2], words[3], words[4]);
    lent::two(ours, r.start, r.length)
}

// Each field of a tag by its number, behind an answer's first two words, up to the first number that has none. No words where the fields are
// not as many as the count, or the count is not the same each time.
fn put_fields(s: &[u8], tag: u32, count: u64, ours: &mut Words) -> usize {
    let mut k = 0;
    while k < FIELDS {
        let r = capgauze_c::capgauze_pick_at(s, tag, k);
        if r.many != count {
            return 0;
        }
        if r.found == 0 {
            return if k as u64 == count { 2 + 3 * k } else { 0 };
        }
        ours[2 + 3 * k] = r.kind;
        ours[3 + 3 * k] = r.value;
        ours[4 + 3 * k] = r.length;
        k += 1;
    }
    0
}

fn is_picked(p: PickWords, number: u64, found: u64, kind: u64, value: u64, length: u64) -> bool {
    if p.number != number {
        return false;
    }
    if p.found != found {
        return false;
    }
    if p.kind != kind {
        return false;
    }
    if p.value != value {
        return false;
    }
    p.length == length
}

// Whether pick answers what there is at number 0, and Repeated where that is not all.
fn is_only(p: PickWords, first: LookupWords) -> bool {
    if 1 < first.many {
        return is_picked(p, wire::number_of(Refusal::Repeated), 0, 0, 0, 0);
    }
    is_picked(
        p,
        first.number,
        first.found,
        first.kind,
        first.value,
        first.length,
    )
}

// The list has all fields of a tag. They are asked of pick_at, and pick has to go with them.
pub(crate) fn ask_pick(s: &[u8], words: &Words, ours: &mut Words) -> usize {
    let tag = tag_of(words[0]);
    let first = capgauze_c::capgauze_pick_at(s, tag, 0);
    if is_only(capgauze_c::capgauze_pick(s, tag), first) {
        lent::two(ours, first.number, first.many);
        return put_fields(s, tag, first.many, ours);
    }
    0
}

// The bytes of an accepted write. A refusal's length is of no bytes that stand in the buffer.
fn message_bytes(number: u64, length: u64) -> usize {
    if 0 < number {
        return 0;
    }
    length as usize
}

fn written_told(
    letter: u8,
    number: u64,
    start: u64,
    length: u64,
    buf: &[u8],
    ours: &mut Words,
) -> usize {
    lent::three(ours, number, start, length);
    let part = Part {
        start: start as usize,
        length: message_bytes(number, length),
        fill: line::wide(FILL_BYTE),
    };
    let seen = lent::look_at_bytes(buf, part, ours, 3);
    seen_or_sum(is_summed(letter), seen, ours, 3)
}

fn write_into(
    letter: u8,
    s: &[u8],
    table: &[u64],
    count: usize,
    buf: &mut [u8],
    ours: &mut Words,
) -> usize {
    match letter {
        letter::ENCODE_MESSAGE | letter::ENCODE_MESSAGE_SUM | letter::ENCODE_NO_BUFFER => {
            let r = capgauze_c::capgauze_encode_message(s, table, count, buf);
            written_told(letter, r.number, r.start, r.length, buf, ours)
        }
        _ => {
            let r = capgauze_c::capgauze_prepend_message(s, table, count, buf);
            written_told(letter, r.number, r.start, r.length, buf, ours)
        }
    }
}

// The bytes of the buffer that is lent: for one letter there are none.
fn room_of(letter: u8, words: &Words) -> usize {
    if letter == letter::ENCODE_NO_BUFFER {
        return 0;
    }
    words[1] as usize
}

pub(crate) fn ask_write(
    letter: u8,
    s: &[u8],
    table: &[u64],
    words: &Words,
    buf: &mut [u8],
    ours: &mut Words,
) -> usize {
    let count = words[0] as usize;
    let n = room_of(letter, words);
    if buf.len() < n {
        return 0;
    }
    blank_bytes(&mut buf[0..n]);
    write_into(letter, s, table, count, &mut buf[0..n], ours)
}

// The answer has all words of the table.
pub(crate) fn ask_insert(s: &[u8], table: &mut [u64], words: &Words, ours: &mut Words) -> usize {
    let r = capgauze_c::capgauze_insert(
        s,
        table,
        words[0] as usize,
        words[1],
        words[2],
        words[3],
        words[4],
    );
    lent::two(ours, r.number, r.value);
    let part = Part {
        start: 0,
        length: table.len(),
        fill: 0,
    };
    lent::look_at_words(table, part, ours, 2).words
}
