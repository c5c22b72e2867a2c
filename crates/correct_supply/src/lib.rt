// Which of two messages supplies a tag, the original or its correction, and the value's bytes there as they stand on the wire.
#![tactic(auto)]

ghost use Rattle.std.specs.Prelude.{◌≡◌, ◌≤◌, eqb};
ghost use Rattle.wire.specs.Choose.{choose};
ghost use Rattle.entry_message.specs.Messages.{part_of};
ghost use Rattle.correct_supply.specs.Supplying.{between, held, supply_of, supplied_by, corrected_part};

use entry_answer::{Gated, Supplier};
use message_payload::Span;
use wire::{KeyFound, Refusal, Value, ValueFound};

// What a message has of a tag: how many fields, and the first one's value; or why it is not read.
#[derive(Clone, Copy)]
enum Held {
    Fields(usize, Span),
    Refused(Refusal),
}

// Which message has the value of a tag, and where; or that none has; or why none is answered.
#[derive(Clone, Copy)]
pub enum Supply {
    Original(Span),
    Correction(Span),
    Absent,
    Refused(Refusal),
}

// A value's own bytes, by the place behind its key and the one behind it: a payload's length is not among them.
fn bare(value: Value, at: usize, next: usize) -> Span
    requires { at ≤ next }
    ensures { result ≡ between value at next }
{
    let whole = Span {
        start: at,
        length: next - at,
    };
    match value {
        Value::Varint(_) => whole,
        Value::LengthDelimited(start, length) => Span {
            start: start,
            length: length,
        },
        Value::ThirtyTwoBit(_) => whole,
        Value::SixtyFourBit(_) => whole,
    }
}

// The first of those that were found.
fn first(count: usize, found: Span, new: Span) -> Span
    ensures { result ≡ choose (eqb count 0) new found }
{
    if count == 0 {
        return new;
    }
    found
}

// What a message, which is read whole, has of a tag.
// INLINE: keys and values are read, not steps: field::step_from has one caller in the archive and is folded into it.
fn seek(s: &[u8], tag: u32) -> Held
    ensures { result ≡ held s.now tag }
{
    if let Gated::Shut(r) = entry_answer::gate(s.len(), 0, s.len()) {
        return Held::Refused(r);
    }
    let mut p: usize = 0;
    let mut last: u32 = 0;
    let mut count: usize = 0;
    let mut found = Span {
        start: 0,
        length: 0,
    };
    while p < s.len() {
        match field_key::decode_key(s, p, s.len(), last) {
            KeyFound::Refused(why) => {
                return Held::Refused(why);
            }
            KeyFound::Got(key, q) => {
                let wire = key.wire;
                match field_value::decode_value(s, q, s.len(), wire) {
                    ValueFound::Refused(no) => {
                        return Held::Refused(no);
                    }
                    ValueFound::Got(v, next) => {
                        p = next;
                        last = key.tag;
                        if last != tag {
                            continue;
                        }
                        found = first(count, found, bare(v, q, next));
                        count += 1;
                    }
                }
            }
        }
    }
    Held::Fields(count, found)
}

// Which message supplies a tag: the correction, if it has a field of it, else the original. Both are read whole, the original first; Repeated is of
// the supplier alone.
pub fn supply_of(original: &[u8], correction: &[u8], tag: u32) -> Supply
    ensures { result ≡ supply_of original.now correction.now tag }
{
    match seek(original, tag) {
        Held::Refused(r) => Supply::Refused(r),
        Held::Fields(n, p) => {
            match seek(correction, tag) {
                Held::Refused(why) => Supply::Refused(why),
                Held::Fields(m, q) => {
                    if m == 1 {
                        return Supply::Correction(q);
                    }
                    if 1 < m {
                        return Supply::Refused(Refusal::Repeated);
                    }
                    if n == 1 {
                        return Supply::Original(p);
                    }
                    if 1 < n {
                        return Supply::Refused(Refusal::Repeated);
                    }
                    Supply::Absent
                }
            }
        }
    }
}

// The same without the place.
pub fn corrected_by(original: &[u8], correction: &[u8], tag: u32) -> Supplier
    ensures { result ≡ supplied_by original.now correction.now tag }
{
    match supply_of(original, correction, tag) {
        Supply::Original(_) => Supplier::Original,
        Supply::Correction(_) => Supplier::Correction,
        Supply::Absent => Supplier::Absent,
        Supply::Refused(r) => Supplier::Refused(r),
    }
}

// The value of a tag: the part of the message that supplies it, not a copy. Where there is none, or it is refused, the empty part at the
// original's front.
pub fn corrected_part<'a>(original: &'a [u8], correction: &'a [u8], tag: u32) -> &'a [u8]
    ensures { part_of result ≡ corrected_part original.entry correction.entry tag }
{
    match supply_of(original, correction, tag) {
        Supply::Original(p) => {
            let start = p.start;
            let end = start + p.length;
            &original[start..end]
        }
        Supply::Correction(p) => {
            let start = p.start;
            let end = start + p.length;
            &correction[start..end]
        }
        Supply::Absent => &original[0..0],
        Supply::Refused(_) => &original[0..0],
    }
}
