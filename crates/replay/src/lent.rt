// What a case is lent: the source and the table that lines set, and what is found in lent memory after a call.
use super::line;
use super::line::{WORDS, Words};

// What a table's words and a buffer's bytes are before a call.
pub(crate) const FILL_WORD: u64 = 0xA5A5_A5A5_A5A5_A5A5;

pub(crate) const FILL_BYTE: u8 = 0xA5;

// Words of a line to be copied so many times: from first to end, now at one of them.
#[derive(Clone, Copy)]
pub(crate) struct Copies {
    pub(crate) first: usize,
    pub(crate) end: usize,
    pub(crate) at: usize,
    pub(crate) left: u64,
}

// The part of lent memory that a call may write, and what the rest must still hold.
#[derive(Clone, Copy)]
pub(crate) struct Part {
    pub(crate) start: usize,
    pub(crate) length: usize,
    pub(crate) fill: u64,
}

// What was found in lent memory: how many words the answer has now, and the sum.
#[derive(Clone, Copy)]
pub(crate) struct Seen {
    pub(crate) words: usize,
    pub(crate) sum: u64,
}

impl Copies {
    pub(crate) fn of(first: usize, end: usize, times: u64) -> Copies {
        Copies {
            first: first,
            end: end,
            at: first,
            left: if first < end { times } else { 0 },
        }
    }

    pub(crate) fn next(self) -> Copies {
        let at = self.at;
        let left = self.left;
        if at < self.end {
            if 1 < self.end - at {
                return Copies {
                    first: self.first,
                    end: self.end,
                    at: at + 1,
                    left: left,
                };
            }
        }
        Copies {
            first: self.first,
            end: self.end,
            at: self.first,
            left: if 0 < left { left - 1 } else { 0 },
        }
    }
}

// Words put as bytes of the source from a place on: the place after them, or one that no source has.
pub(crate) fn put_bytes(words: &Words, copies: Copies, source: &mut [u8], from: usize) -> usize {
    let mut c = copies;
    let mut at = from;
    while at < source.len() {
        if c.left == 0 {
            return at;
        }
        source[at] = (line::word_of(words, c.at) % 256) as u8;
        c = c.next();
        at += 1;
    }
    if c.left == 0 { at } else { usize::MAX }
}

// The same for the table.
pub(crate) fn put_words(words: &Words, copies: Copies, table: &mut [u64], from: usize) -> usize {
    let mut c = copies;
    let mut at = from;
    while at < table.len() {
        if c.left == 0 {
            return at;
        }
        table[at] = line::word_of(words, c.at);
        c = c.next();
        at += 1;
    }
    if c.left == 0 { at } else { usize::MAX }
}

// One more word of an answer. What has no room can be in no list.
pub(crate) fn keep(ours: &mut Words, n: usize, w: u64) -> usize {
    if n < WORDS {
        ours[n] = w;
        return n + 1;
    }
    n
}

pub(crate) fn two(ours: &mut Words, a: u64, b: u64) -> usize {
    ours[0] = a;
    ours[1] = b;
    2
}

pub(crate) fn three(ours: &mut Words, a: u64, b: u64, c: u64) -> usize {
    ours[0] = a;
    ours[1] = b;
    ours[2] = c;
    3
}

pub(crate) fn four(ours: &mut Words, a: u64, b: u64, c: u64, d: u64) -> usize {
    ours[0] = a;
    ours[1] = b;
    ours[2] = c;
    ours[3] = d;
    4
}

// Where the failing read began, and the bytes that it looked at, behind an answer's other words.
pub(crate) fn fault(ours: &mut Words, n: usize, failing: u64, bytes: u64) -> usize {
    let m = keep(ours, n, failing);
    keep(ours, m, bytes)
}

// Half a word of a sum. The sum's remainder is taken first too, so that nothing is asked of it.
pub(crate) fn mix(sum: u64, half: u64) -> u64 {
    (sum % 4_294_967_291 * 65_599 + half % 0x1_0000_0000) % 4_294_967_291
}

// A word of lent memory: told in the part that was written, and else its place told if it is no longer what it was.
pub(crate) fn look(seen: Seen, i: usize, w: u64, part: Part, ours: &mut Words) -> Seen {
    let sum = mix(mix(seen.sum, w / 0x1_0000_0000), w);
    let n = seen.words;
    if part.start <= i {
        if i - part.start < part.length {
            return Seen {
                words: keep(ours, n, w),
                sum: sum,
            };
        }
    }
    if w == part.fill {
        return Seen { words: n, sum: sum };
    }
    Seen {
        words: keep(ours, n, i as u64),
        sum: sum,
    }
}

pub(crate) fn look_at_bytes(buf: &[u8], part: Part, ours: &mut Words, from: usize) -> Seen {
    let mut seen = Seen {
        words: from,
        sum: 0,
    };
    let mut i = 0;
    while i < buf.len() {
        seen = look(seen, i, line::wide(buf[i]), part, ours);
        i += 1;
    }
    seen
}

pub(crate) fn look_at_words(table: &[u64], part: Part, ours: &mut Words, from: usize) -> Seen {
    let mut seen = Seen {
        words: from,
        sum: 0,
    };
    let mut i = 0;
    while i < table.len() {
        seen = look(seen, i, table[i], part, ours);
        i += 1;
    }
    seen
}
