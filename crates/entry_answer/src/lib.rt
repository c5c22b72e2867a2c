// What a caller is told: the answers of every entry, and what each reader tests first. What an answer is worth in numbers stands in specs/Told.
#![tactic(auto)]

ghost use Rattle.std.specs.Prelude.{◌≡◌};
ghost use Rattle.entry_answer.specs.Gate.{gated};

use wire::{Fault, Field, Key, Refusal, Value};

// Whether a reader may read at all.
#[derive(Clone, Copy)]
pub enum Gated {
    Open,
    Shut(Refusal),
}

// The number of bytes put, or why none were.
#[derive(Clone, Copy)]
pub enum Put {
    Done(usize),
    Refused(Refusal),
}

// A number and the place after it, or a refusal, the place given and how many bytes were looked at.
#[derive(Clone, Copy)]
pub enum VarintRead {
    Got(u64, usize),
    Refused(Refusal, usize, usize),
}

// A key and the place after it, or a refusal, the place and the last tag given, and where the read failed.
#[derive(Clone, Copy)]
pub enum KeyRead {
    Got(Key, usize),
    Refused(Refusal, usize, u32, Fault),
}

// A value and the place after it, or a refusal, the place given, and where the read failed.
#[derive(Clone, Copy)]
pub enum ValueRead {
    Got(Value, usize),
    Refused(Refusal, usize, Fault),
}

// The place reached, or a refusal, the place given, and where the read failed.
#[derive(Clone, Copy)]
pub enum Skipped {
    To(usize),
    Refused(Refusal, usize, Fault),
}

// A field and the place after it, or the end, or a refusal, the place and the last tag given, and where the read failed.
#[derive(Clone, Copy)]
pub enum Step {
    Field(Field, usize),
    End,
    Refused(Refusal, usize, u32, Fault),
}

// A length, or why there is none.
#[derive(Clone, Copy)]
pub enum KeyLength {
    Length(usize),
    Refused(Refusal),
}

// The only field of a tag, or that there is none, or why none is answered.
#[derive(Clone, Copy)]
pub enum Picked {
    Found(Field),
    Absent,
    Refused(Refusal),
}

// How many fields there are of a tag, and the one at a number or that there is none there; or why the message has none.
#[derive(Clone, Copy)]
pub enum Several {
    Found(usize, Field),
    Absent(usize),
    Refused(Refusal),
}

// Whether a message goes on at a place: before its end, at it, or why not.
#[derive(Clone, Copy)]
pub enum More {
    Yes,
    No,
    Refused(Refusal),
}

// How many tags an index has, or why there is none.
#[derive(Clone, Copy)]
pub enum Indexed {
    Tags(usize),
    Refused(Refusal),
}

// What every reader tests first, of a slice's length and two places: TooLong, then BadCap.
pub fn gate(len: usize, at: usize, end: usize) -> Gated
    ensures { result ≡ gated len at end }
{
    if wire::MESSAGE_LIMIT < len {
        return Gated::Shut(Refusal::TooLong);
    }
    if len < at {
        return Gated::Shut(Refusal::BadCap);
    }
    if len < end {
        return Gated::Shut(Refusal::BadCap);
    }
    Gated::Open
}

// Which message supplies a tag, the original or its correction, or that none does, or why none is answered.
#[derive(Clone, Copy)]
pub enum Supplier {
    Original,
    Correction,
    Absent,
    Refused(Refusal),
}

// How many values a run has, or why there is none.
#[derive(Clone, Copy)]
pub enum RunCount {
    Values(usize),
    Refused(Refusal),
}

// The value of a run at a number, or that there is none there; or why the run is none.
#[derive(Clone, Copy)]
pub enum RunValue {
    Found(Value),
    Absent,
    Refused(Refusal),
}
