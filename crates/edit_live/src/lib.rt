// A working copy's live payloads: the records of a table that are payloads with bytes, in one lent room. Where each lies, whether two overlap, how many bytes
// they leave, and which comes next in order of place.
#![tactic(auto)]

ghost use Rattle.std.specs.Prelude.{◌≡◌, ◌+◌, ◌-◌, ◌^◌, max, ◌≤◌, ◌<◌};
ghost use Rattle.edit_live.specs.Spans.{end, meets_any, found, first_overlap, first_keyed, last_end, total, nearer, next_live};
ghost use Rattle.edit_live.specs.Gaps.{narrowed, gap_end, Clear, Gap};

use wire::NO_KEY;

// Bytes of a room. A record that has none there has no bytes, at place 0.
#[derive(Clone, Copy)]
pub struct Span {
    pub start: usize,
    pub len: usize,
}

// The larger of a place and a payload's end.
fn farther(last: usize, s: Span) -> usize
    requires { end s < 2 ^ 64 }
    ensures { result ≡ max last (end s) }
{
    last.max(s.start + s.len)
}

// A payload from a place on that starts below another place.
pub fn is_nearer(s: Span, from: usize, low: usize) -> bool
    ensures { result ≡ nearer s from low }
{
    0 < s.len && from <= s.start && s.start < low
}

// The end of a gap in which some bytes lie, once a payload is seen: 0 if it overlaps them.
fn narrow(s: Span, a: Span, high: usize) -> usize
    requires { (end s < 2 ^ 64) × (end a < 2 ^ 64) }
    ensures { result ≡ narrowed s a high }
{
    if s.start < a.start + a.len {
        if a.start < s.start + s.len {
            return 0;
        }
        return high;
    }
    if s.start < high {
        return s.start;
    }
    high
}

// The first records of a table, `count` of them, over a room of `size` bytes. The record at `skip` is left out; where `skip` is `count` or more, none is.
#[derive(Clone, Copy)]
pub struct Payloads<'a> {
    pub table: &'a [u64],
    pub count: usize,
    pub skip: usize,
    pub size: usize,
}

impl<'a> Payloads<'a> {
    ghost use Rattle.edit_live.specs.Payloads.{spans};

    // The bytes of record i. They are tested with no sum, which could wrap.
    // INLINE: the table is read before the test of `skip`, which lets the compiler take its length and its test out of a caller's loop.
    pub fn span_at(&self, i: usize) -> Span
        ensures { result ≡ spans self.now i }
    {
        let r = write_record::record_at(self.table, i);
        if i == self.skip {
            return Span { start: 0, len: 0 };
        }
        if r.kind == 1 {
            if r.length == 0 {
                return Span { start: 0, len: 0 };
            }
            if (self.size as u64) < r.value {
                return Span { start: 0, len: 0 };
            }
            if r.length <= self.size as u64 - r.value {
                return Span {
                    start: r.value as usize,
                    len: r.length as usize,
                };
            }
            return Span { start: 0, len: 0 };
        }
        Span { start: 0, len: 0 }
    }

    // The place after the last payload.
    pub fn last_end(&self) -> usize
        ensures { result ≡ last_end self.now.count (spans self.now) }
    {
        let mut last: usize = 0;
        for i in 0..self.count {
            last = farther(last, self.span_at(i));
        }
        last
    }

    // How many bytes of the room the payloads leave, wherever these lie; at least none.
    pub fn spare(&self) -> usize
        ensures { result ≡ self.now.size - total self.now.count (spans self.now) }
    {
        let mut left = self.size;
        for i in 0..self.count {
            left = left.saturating_sub(self.span_at(i).len);
        }
        left
    }

    // The index of the payload with the least start from a place on. Where there is none it is the count, and not None: packing then seeks its fence from
    // there on.
    pub fn next_live(&self, from: usize) -> usize
        ensures { result ≡ next_live self.now.size self.now.count (spans self.now) from }
    {
        let mut next = self.count;
        let mut low = self.size;
        for i in 0..self.count {
            let s = self.span_at(i);
            if is_nearer(s, from, low) {
                next = i;
                low = s.start;
            }
        }
        next
    }

    // Bytes among the first payloads, so many of them: where the gap that they lie in ends, or 0 if one of the payloads overlaps them.
    fn gap_end(&self, first: usize, a: Span) -> usize
        requires { end a < 2 ^ 64 }
        ensures { result ≡ gap_end self.now.size first (spans self.now) a }
    {
        let mut high = self.size;
        for i in 0..first {
            high = narrow(self.span_at(i), a, high);
        }
        high
    }

    // The same of bytes where no payload lies between `low` and `high`: only those that lie elsewhere are compared with each payload.
    fn gap_of(&self, first: usize, a: Span, low: usize, high: usize) -> usize
        requires { (0 < a.len) × (end a ≤ self.now.size) × Clear first (spans self.now) low high }
        ensures { Gap first (spans self.now) a result }
    {
        if a.start < low || high < a.start + a.len {
            return self.gap_end(first, a);
        }
        high
    }

    // The least index whose payload overlaps that of an earlier one. Payloads whose places rise with their index are seen once; one that breaks the order, or
    // goes past the gap that it lies in, is compared with all before it.
    pub fn first_overlap(&self) -> Option<usize>
        ensures { result ≡ found self.now.count (first_overlap self.now.count (spans self.now)) }
    {
        let mut low: usize = 0;
        let mut high = self.size;
        for i in 0..self.count {
            let s = self.span_at(i);
            if 0 < s.len {
                high = self.gap_of(i, s, low, high);
                if high == 0 {
                    return Some(i);
                }
                low = s.start + s.len;
            }
        }
        None
    }
}

// The least index whose key word is not all ones.
pub fn first_keyed(table: &[u64], count: usize) -> Option<usize>
    ensures { result ≡ found count (first_keyed count table.now) }
{
    for i in 0..count {
        if write_record::record_at(table, i).key != NO_KEY {
            return Some(i);
        }
    }
    None
}
