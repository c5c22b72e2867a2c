// A correction over an original, written as one message: the correction's fields, and the original's of all other tags. Values, and the keys that stand
// behind a key of their own message, are copied as they stand; only where the two meet is a key written anew.
#![tactic(auto)]

ghost use Rattle.std.specs.Prelude.{◌≡◌, ◌+◌, ◌/◌, ◌≤◌, ◌<◌, false, ltb, leb, length};
ghost use Rattle.wire.specs.Choose.{choose};
ghost use Rattle.wire.specs.Limits.{message_limit};
ghost use Rattle.place.specs.Spans.{Spans};
ghost use Rattle.correct_write.specs.Corrected.{taken, write_corrected};
ghost use Rattle.correct_write.specs.TagByTag.{Over};
ghost use Rattle.correct_write.specs.Rests.{items_from, Rest, Heads};
ghost use Rattle.correct_write.specs.Moving.{moved, Run, Passing};
ghost use Rattle.correct_write.specs.Brief.{Brief};
ghost use Rattle.correct_write.specs.Turning.{Turned, Both, result_bytes};
ghost use Rattle.correct_write.specs.Accepting.{usable};

use entry_answer::{Gated, Put, Several};
use wire::{KeyFound, Refusal, ValueFound};

// Where fields that were passed end, and the tag of the last one.
#[derive(Clone, Copy)]
struct Passed {
    next: usize,
    last: u32,
}

// One tag of the correction: where the original's fields of lower tags end, and the tag behind which the correction's stand then; where these end, and
// their tag; where the original's of the tag end, and the tag of the last one passed there.
#[derive(Clone, Copy)]
struct Turn {
    low: usize,
    out: u32,
    group: usize,
    tag: u32,
    next: usize,
    last: u32,
}

// Whether a message is accepted, or why not.
fn accept(s: &[u8]) -> Gated
    ensures { result ≡ usable (taken s.now) }
{
    match entry_message::pick_at(s, 0, 0) {
        Several::Found(_, _) => Gated::Open,
        Several::Absent(_) => Gated::Open,
        Several::Refused(r) => Gated::Shut(r),
    }
}

// How many bytes a payload's field has whose key and length are one byte each; 0 for any other field.
// INLINE: most fields of a sounding are such, and the readers of a key and of a value are calls. With them alone a correction with fields behind 120 levels
// took 1.2 times as long.
fn short_len(s: &[u8], p: usize) -> usize
    requires { p < length s.now }
    ensures { (0 < result → Brief s.now p result) }
{
    if s.len() - p < 2 {
        return 0;
    }
    let key = s[p];
    if 127 < key {
        return 0;
    }
    if key % 4 != 1 {
        return 0;
    }
    let len = s[p + 1];
    if 127 < len {
        return 0;
    }
    len as usize + 2
}

// By how much the tag rises at a key of one byte.
fn rise_of(key: u8) -> u32
    ensures { result ≡ key / 4 }
{
    (key / 4) as u32
}

// The fields from a place on whose tags are below a limit.
fn pass(s: &[u8], at: usize, last: u32, limit: u64) -> Passed
    requires { Rest s.now at last }
    ensures { Passing s.now at last limit result.next result.last × Over limit (items_from s.now result.next result.last) }
{
    let mut p = at;
    let mut tag = last;
    while p < s.len() {
        let n = short_len(s, p);
        if 0 < n {
            let higher = tag + rise_of(s[p]);
            if limit <= higher as u64 {
                break;
            }
            p += n;
            tag = higher;
            continue;
        }
        match field_key::decode_key(s, p, s.len(), tag) {
            KeyFound::Refused(_) => {
                break;
            }
            KeyFound::Got(key, q) => {
                if limit <= key.tag as u64 {
                    break;
                }
                let wire = key.wire;
                match field_value::decode_value(s, q, s.len(), wire) {
                    ValueFound::Refused(_) => {
                        break;
                    }
                    ValueFound::Got(_, next) => {
                        p = next;
                        tag = key.tag;
                    }
                }
            }
        }
    }
    Passed { next: p, last: tag }
}

// The tag of the field at a place.
fn tag_at(s: &[u8], at: usize, last: u32) -> u32
    requires { Rest s.now at last × (at < length s.now) }
    ensures { Heads s.now at last result }
{
    match field_key::decode_key(s, at, s.len(), last) {
        KeyFound::Refused(_) => last,
        KeyFound::Got(key, _) => key.tag,
    }
}

// The tag of the last field that was passed, if there was one, else the one before.
fn later(at: usize, next: usize, last: u32, prior: u32) -> u32
    ensures { result ≡ choose (ltb at next) last prior }
{
    if at < next {
        return last;
    }
    prior
}

// The next tag of the correction.
fn turn_of(
    original: &[u8],
    at: usize,
    last: u32,
    correction: &[u8],
    from: usize,
    prior: u32,
) -> Turn
    requires { Rest original.now at last × Rest correction.now from prior × (from < length correction.now) }
    ensures { Turned original.now at last correction.now from prior result }
{
    let limit = tag_at(correction, from, prior) as u64;
    let low = pass(original, at, last, limit);
    let high = pass(original, low.next, low.last, limit + 1);
    let group = pass(correction, from, prior, limit + 1);
    Turn {
        low: low.next,
        out: later(at, low.next, low.last, prior),
        group: group.next,
        tag: group.last,
        next: high.next,
        last: high.last,
    }
}

// How many bytes fields take behind another tag: the first one's key is new, all else as it stands.
fn moved_len(s: &[u8], at: usize, last: u32, end: usize, out: u32) -> usize
    requires { Run s.now at last end × (length s.now ≤ message_limit) }
    ensures { result ≡ length (moved s.now at last end out) }
{
    if end <= at {
        return 0;
    }
    match field_key::decode_key(s, at, s.len(), last) {
        KeyFound::Refused(_) => 0,
        KeyFound::Got(key, q) => field_key::key_len(out, key.tag) + (end - q),
    }
}

// Those bytes, from a place of a buffer on, and the place behind them.
fn put_moved(
    buf: &mut [u8],
    to: usize,
    s: &[u8],
    at: usize,
    last: u32,
    end: usize,
    out: u32,
) -> usize
    requires { Run s.now at last end × (to + length (moved s.now at last end out) ≤ length buf.old) }
    ensures { Spans buf.old to result (moved s.now at last end out) buf.new }
{
    if end <= at {
        return to;
    }
    match field_key::decode_key(s, at, s.len(), last) {
        KeyFound::Refused(_) => to,
        KeyFound::Got(key, q) => {
            let wire = key.wire;
            let next = field_key::put_key(buf, to, out, key.tag, wire);
            place::put_bytes(buf, next, s, q, end - q)
        }
    }
}

// How long the result is.
fn measure(original: &[u8], correction: &[u8]) -> usize
    requires { Both original.now correction.now }
    ensures { result ≡ length (result_bytes original.now correction.now) }
{
    let mut p: usize = 0;
    let mut last: u32 = 0;
    let mut q: usize = 0;
    let mut tag: u32 = 0;
    let mut n: usize = 0;
    while q < correction.len() {
        let t = turn_of(original, p, last, correction, q, tag);
        n += moved_len(original, p, last, t.low, tag);
        n += moved_len(correction, q, tag, t.group, t.out);
        p = t.next;
        last = t.last;
        q = t.group;
        tag = t.tag;
    }
    n + moved_len(original, p, last, original.len(), tag)
}

// The result at the buffer's front, which has room for it.
fn put_all(original: &[u8], correction: &[u8], buf: &mut [u8]) -> usize
    requires { Both original.now correction.now × (length (result_bytes original.now correction.now) ≤ length buf.old) }
    ensures { Spans buf.old 0 result (result_bytes original.now correction.now) buf.new }
{
    let mut p: usize = 0;
    let mut last: u32 = 0;
    let mut q: usize = 0;
    let mut tag: u32 = 0;
    let mut at: usize = 0;
    while q < correction.len() {
        let t = turn_of(original, p, last, correction, q, tag);
        at = put_moved(buf, at, original, p, last, t.low, tag);
        at = put_moved(buf, at, correction, q, tag, t.group, t.out);
        p = t.next;
        last = t.last;
        q = t.group;
        tag = t.tag;
    }
    put_moved(buf, at, original, p, last, original.len(), tag)
}

// Whether so many bytes are within the limit and have room. Both lengths together are always enough, so that where they have room nothing is measured.
fn is_ample(n: usize, room: usize) -> bool
    ensures { result ≡ choose (leb n message_limit) (leb n room) false }
{
    if n <= wire::MESSAGE_LIMIT {
        return n <= room;
    }
    false
}

// The original under a correction, as one message at the buffer's front. Both are read whole first, the original before the correction; a refusal leaves
// the buffer as it was.
pub fn write_corrected(original: &[u8], correction: &[u8], buf: &mut [u8]) -> Put
    ensures { record { answer = result; buf = buf.new } ≡ write_corrected original.now correction.now buf.old }
{
    if let Gated::Shut(r) = accept(original) {
        return Put::Refused(r);
    }
    if let Gated::Shut(why) = accept(correction) {
        return Put::Refused(why);
    }
    if is_ample(original.len() + correction.len(), buf.len()) {
        return Put::Done(put_all(original, correction, buf));
    }
    let n = measure(original, correction);
    if wire::MESSAGE_LIMIT < n {
        return Put::Refused(Refusal::TooLong);
    }
    if buf.len() < n {
        return Put::Refused(Refusal::NoRoom);
    }
    Put::Done(put_all(original, correction, buf))
}
