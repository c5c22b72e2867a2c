// Live payloads packed at the front of their room in order of place, and their starts amended.
#![tactic(auto)]

ghost use Rattle.std.specs.Prelude.{◌≡◌, ◌-◌, ◌≤◌, ◌<◌};
ghost use Rattle.wire.specs.Table.{room};
ghost use Rattle.edit_live.specs.Payloads.{spans};
ghost use Rattle.edit_live.specs.Spans.{found, next_live};
ghost use Rattle.edit_pack.specs.Packing.{amended, empty_at, cleared, Packed, packed};
ghost use Rattle.edit_pack.specs.Fence.{first_between, follows, Fenced};

use edit_live::{Payloads, Span};
use wire::RECORD_WORDS;

// The index of a payload that is packed next, and how far the order of the table is that of the places after it.
#[derive(Clone, Copy)]
struct Pick {
    next: usize,
    fence: usize,
}

// A record's payload starts at a place.
fn amend(table: &mut [u64], i: usize, p: usize)
    requires { i < room table.old }
    ensures { table.new ≡ amended table.old i p }
{
    table[RECORD_WORDS * i + 2] = p as u64;
}

// The next payload by index, from an index on, that starts between two places.
fn first_between(payloads: &Payloads, at: usize, from: usize, fence: usize) -> Option<usize>
    ensures { result ≡ found payloads.now.count
        (first_between (payloads.now.count - at) (spans payloads.now) from fence at) }
{
    for i in at..payloads.count {
        if edit_live::is_nearer(payloads.span_at(i), from, fence) {
            return Some(i);
        }
    }
    None
}

// A payload no earlier than an index that starts at a place or after it.
fn is_after(at: usize, i: usize, last: usize, s: Span) -> bool
    ensures { result ≡ follows at i last s }
{
    at <= i && last <= s.start
}

// A place up to which the payloads that start from another place on come in the order of their index, from an index on: the least start of those that do not.
fn fence_at(payloads: &Payloads, from: usize, at: usize) -> usize
    ensures { Fenced payloads.now.count (spans payloads.now) from at result }
{
    let mut fence = payloads.size;
    let mut last: usize = 0;
    for i in 0..payloads.count {
        let s = payloads.span_at(i);
        if edit_live::is_nearer(s, from, fence) {
            if is_after(at, i, last, s) {
                last = s.start + s.len;
            } else {
                fence = s.start;
            }
        }
    }
    fence
}

// The next payload in order of place from a place on, and a fence for those after it. Up to the last fence it is the next by index; else all are looked at.
fn pick_next(payloads: &Payloads, from: usize, last: Pick) -> Pick
    requires { (last.next ≤ payloads.now.count) × Fenced payloads.now.count (spans payloads.now) from last.next last.fence }
    ensures { (result.next ≡ next_live payloads.now.size payloads.now.count (spans payloads.now) from)
        × Fenced payloads.now.count (spans payloads.now) from result.next result.fence }
{
    if let Some(next) = first_between(payloads, last.next, from, last.fence) {
        return Pick {
            next,
            fence: last.fence,
        };
    }
    let next = payloads.next_live(from);
    Pick {
        next,
        fence: fence_at(payloads, from, next),
    }
}

// A payload with no bytes.
fn is_empty(table: &[u64], i: usize, skip: usize) -> bool
    ensures { result ≡ empty_at table.now skip i }
{
    if i == skip {
        return false;
    }
    let r = write_record::record_at(table, i);
    r.kind == 1 && r.length == 0
}

// Payloads with no bytes start at 0.
fn clear_empty(table: &mut [u64], count: usize, skip: usize)
    ensures { table.new ≡ cleared count skip table.old }
{
    for i in 0..count {
        if is_empty(table, i, skip) {
            amend(table, i, 0);
        }
    }
}

// The payloads of the first records, one of them left out, at the front of the room in order of place. Answers the place after them.
pub fn pack(room: &mut [u8], table: &mut [u64], count: usize, skip: usize) -> usize
    ensures { record { total = result; room = room.new; table = table.new }
        ≡ packed count skip room.old table.old }
{
    let size = room.len();
    let mut from: usize = 0;
    let mut to: usize = 0;
    let payloads = Payloads {
        table,
        count,
        skip,
        size,
    };
    // At first no order is known: no payload starts below the fence.
    let mut pick = pick_next(
        &payloads,
        0,
        Pick {
            next: count,
            fence: 0,
        },
    );
    while pick.next < count {
        let s = Payloads {
            table,
            count,
            skip,
            size,
        }
        .span_at(pick.next);
        room.copy_within(s.start..s.start + s.len, to);
        amend(table, pick.next, to);
        from = s.start + s.len;
        to += s.len;
        let payloads = Payloads {
            table,
            count,
            skip,
            size,
        };
        pick = pick_next(&payloads, from, pick);
    }
    clear_empty(table, count, skip);
    to
}
