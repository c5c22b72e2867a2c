// An index as a line of characters, written and read: the edition, then for each entry its tag, its place and its count in hexadecimal digits.
// Place and count have w digits each: six in edition 02, which is written, and four in edition 01, which is read still.
#![tactic(auto)]

ghost use Rattle.std.specs.Prelude.{◌≡◌, ◌+◌, ◌*◌, ◌^◌, ◌-◌, ◌≤◌, ◌<◌, length, drop};
ghost use Rattle.place.specs.Place.{put_at};
ghost use Rattle.text_digits.specs.Digits.{digit_of, worth};
ghost use Rattle.index.specs.Index.{entry, index_words, indexed, entries_from};
ghost use Rattle.index_line.specs.Line.{head_digits, width, spelled, spelled_all, write_line};
ghost use Rattle.index_line.specs.Line.{number_at, entries_in, sound_entries, spelled_well, read_line, read_either};
ghost use Rattle.index_line.specs.Chars.{capital as Chars·capital, capitals as Chars·capitals};

use entry_answer::{Indexed, Put};
use wire::Refusal;

// The digits of the edition.
const HEAD_DIGITS: usize = 2;

// The digits of a tag.
const TAG_DIGITS: usize = 8;

// The longest message that has lines of edition 01.
const OLD_LIMIT: usize = 65_535;

// An entry's characters, which have room.
fn put_entry(line: &mut [u8], at: usize, w: usize, tag: u64, place: u64, count: u64) -> usize
    requires { at + width w ≤ length line.old }
    ensures { record { next = result; buf = line.new } ≡ put_at line.old at (spelled w (entry tag place count)) }
{
    let p = text_digits::put_hex(line, at, TAG_DIGITS, tag);
    let q = text_digits::put_hex(line, p, w, place);
    text_digits::put_hex(line, q, w, count)
}

// The characters of the first entries, which have room.
fn put_entries(index: &[u64], tags: usize, w: usize, line: &mut [u8], at: usize) -> usize
    requires { (index_words * tags ≤ length index.now) × (at + width w * tags ≤ length line.old) }
    ensures { record { next = result; buf = line.new } ≡ put_at line.old at (spelled_all w (entries_from tags index.now 0)) }
{
    let mut p = at;
    let mut n: usize = 0;
    let mut i: usize = 0;
    while n < tags {
        p = put_entry(line, p, w, index[i], index[i + 1], index[i + 2]);
        n += 1;
        i += index::INDEX_WORDS;
    }
    p
}

// The line of an edition.
fn write_edition(
    index: &[u64],
    tags: usize,
    edition: u64,
    w: usize,
    places: u64,
    line: &mut [u8],
) -> Put
    requires { (w ≤ 8) × (places ≡ 16 ^ w) }
    ensures { record { answer = result; buf = line.new } ≡ write_line edition w index.now tags line.old }
{
    if !index::sound(index, tags, places, places - 1) {
        return Put::Refused(Refusal::BadIndex);
    }
    if line.len() < HEAD_DIGITS {
        return Put::Refused(Refusal::NoRoom);
    }
    if (line.len() - HEAD_DIGITS) / (TAG_DIGITS + 2 * w) < tags {
        return Put::Refused(Refusal::NoRoom);
    }
    let at = text_digits::put_hex(line, 0, HEAD_DIGITS, edition);
    Put::Done(put_entries(index, tags, w, line, at))
}

// Rule A8: an index as a line, at the front. BadIndex for one that may not be used, or a place or a count of more than six digits; then NoRoom.
pub fn write_line(index: &[u64], tags: usize, line: &mut [u8]) -> Put
    ensures { record { answer = result; buf = line.new } ≡ write_line 2 6 index.now tags line.old }
{
    write_edition(index, tags, 2, 6, 16_777_216, line)
}

// What a character is worth, 0 if it is no digit.
fn worth_of(c: u8) -> u64
    ensures { result ≡ worth (digit_of c) }
{
    u64::from(text_hex::digit_of(c).unwrap_or(0))
}

// The number that k characters spell.
fn number_at(line: &[u8], at: usize, k: usize) -> u64
    requires { (k ≤ 8) × (at + k ≤ length line.now) }
    ensures { result ≡ number_at line.now at k }
{
    let mut x: u64 = 0;
    let mut i = at;
    let mut left = k;
    while 0 < left {
        x = x * 16 + worth_of(line[i]);
        i += 1;
        left -= 1;
    }
    x
}

// Whether a character is a digit, and no small letter.
fn capital(c: u8) -> bool
    ensures { result ≡ Chars·capital c }
{
    if c < b'0' {
        return false;
    }
    if c <= b'9' {
        return true;
    }
    if c < b'A' {
        return false;
    }
    c <= b'F'
}

// Whether all characters from a place on are.
fn capitals(line: &[u8], from: usize) -> bool
    requires { from ≤ length line.now }
    ensures { result ≡ Chars·capitals (drop from line.now) }
{
    let mut i = from;
    while i < line.len() {
        if !capital(line[i]) {
            return false;
        }
        i += 1;
    }
    true
}

// Whether a line has its edition, whole entries and digits only.
fn spelled_well(line: &[u8], edition: u8, w: usize) -> bool
    requires { (edition < 10) × (w ≤ 8) }
    ensures { result ≡ spelled_well edition w line.now }
{
    if line.len() < HEAD_DIGITS {
        return false;
    }
    if line[0] != b'0' {
        return false;
    }
    if line[1] != b'0' + edition {
        return false;
    }
    if 0 < (line.len() - HEAD_DIGITS) % (TAG_DIGITS + 2 * w) {
        return false;
    }
    capitals(line, HEAD_DIGITS)
}

// Whether the tags of a line rise, and no count is 0. A place may be any number.
fn rising(line: &[u8], w: usize, tags: usize) -> bool
    requires { (w ≤ 8) × (head_digits + width w * tags ≤ length line.now) }
    ensures { result ≡ sound_entries w (entries_in w tags line.now head_digits) }
{
    let mut p = HEAD_DIGITS;
    let mut left = tags;
    let mut least: u64 = 0;
    while 0 < left {
        let tag = number_at(line, p, TAG_DIGITS);
        if tag < least {
            return false;
        }
        if number_at(line, p + TAG_DIGITS + w, w) == 0 {
            return false;
        }
        least = tag + 1;
        p += TAG_DIGITS + 2 * w;
        left -= 1;
    }
    true
}

// The entries of a line, for which the index has room.
fn fill(line: &[u8], w: usize, tags: usize, index: &mut [u64])
    requires { (w ≤ 8) × (head_digits + width w * tags ≤ length line.now) × (index_words * tags ≤ length index.old) }
    ensures { index.new ≡ indexed index.old (entries_in w tags line.now head_digits) }
{
    let mut p = HEAD_DIGITS;
    let mut left = tags;
    let mut i: usize = 0;
    while 0 < left {
        index[i] = number_at(line, p, TAG_DIGITS);
        index[i + 1] = number_at(line, p + TAG_DIGITS, w);
        index[i + 2] = number_at(line, p + TAG_DIGITS + w, w);
        p += TAG_DIGITS + 2 * w;
        i += index::INDEX_WORDS;
        left -= 1;
    }
}

// The index of a line of an edition. All of the line is judged before a word is written.
fn read_edition(line: &[u8], edition: u8, w: usize, index: &mut [u64]) -> Indexed
    requires { (edition < 10) × (w ≤ 8) }
    ensures { record { answer = result; index = index.new } ≡ read_line edition w line.now index.old }
{
    if !spelled_well(line, edition, w) {
        return Indexed::Refused(Refusal::BadIndex);
    }
    let tags = (line.len() - HEAD_DIGITS) / (TAG_DIGITS + 2 * w);
    if !rising(line, w, tags) {
        return Indexed::Refused(Refusal::BadIndex);
    }
    if index.len() / index::INDEX_WORDS < tags {
        return Indexed::Refused(Refusal::NoRoom);
    }
    fill(line, w, tags, index);
    Indexed::Tags(tags)
}

// Rule A9: a line as an index, at the front. BadIndex for a line of neither edition, and for one of edition 01 beside a longer message; then NoRoom.
pub fn read_line(line: &[u8], message_len: usize, index: &mut [u64]) -> Indexed
    ensures { record { answer = result; index = index.new } ≡ read_either message_len line.now index.old }
{
    if line.len() < HEAD_DIGITS {
        return Indexed::Refused(Refusal::BadIndex);
    }
    if line[1] == b'2' {
        return read_edition(line, 2, 6, index);
    }
    if OLD_LIMIT < message_len {
        return Indexed::Refused(Refusal::BadIndex);
    }
    read_edition(line, 1, 4, index)
}
