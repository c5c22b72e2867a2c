// The types that every crate shares, and the numbers that have a name. What the bytes mean stands in specs/.
// WireType, Value and Refusal are from src/encoding/mod.rs, opaque.rs and error.rs of bilrost.
#![tactic(auto)]

ghost use Rattle.std.specs.Prelude.{◌≡◌};
ghost use Rattle.wire.specs.Numbers.{number_of};
ghost use Rattle.wire.specs.Table.{good_head};

// The longest slice that is read, and the longest message that is written.
pub const MESSAGE_LIMIT: usize = 1_048_575;

// The words of a record in a table.
pub const RECORD_WORDS: usize = 5;

// The key word of a record that was read from no key.
pub const NO_KEY: u64 = 0xffff_ffff_ffff_ffff;

// The last tag that a field can have.
pub const LAST_TAG: u64 = 0xffff_ffff;

#[derive(Clone, Copy)]
pub enum WireType {
    Varint,
    LengthDelimited,
    ThirtyTwoBit,
    SixtyFourBit,
}

// A value. A payload is its place in the slice and its length.
#[derive(Clone, Copy)]
pub enum Value {
    Varint(u64),
    LengthDelimited(usize, usize),
    ThirtyTwoBit(u32),
    SixtyFourBit(u64),
}

#[derive(Clone, Copy)]
pub struct Field {
    pub tag: u32,
    pub value: Value,
}

#[derive(Clone, Copy)]
pub struct Key {
    pub tag: u32,
    pub wire: WireType,
}

// A field as it stands in a table: its tag, its wire type's number (its kind), the number or the payload's start, the value's bytes (0 for a varint),
// and the place of its key or NO_KEY.
#[derive(Clone, Copy)]
pub struct Record {
    pub tag: u64,
    pub kind: u64,
    pub value: u64,
    pub length: u64,
    pub key: u64,
}

// A record that is put in by hand: it has no key.
#[derive(Clone, Copy)]
pub struct NewRecord {
    pub tag: u64,
    pub kind: u64,
    pub value: u64,
    pub length: u64,
}

// Where a read that failed began, and how many bytes of a varint it looked at: 0 where it was no varint's. Both are 0 where no read failed.
#[derive(Clone, Copy)]
pub struct Fault {
    pub place: usize,
    pub bytes: usize,
}

#[derive(Clone, Copy)]
pub enum Refusal {
    Truncated,
    InvalidVarint,
    TagOverflowed,
    TooLong,
    NoRoom,
    BadRecord,
    OutOfOrder,
    BadCap,
    WrongWireType,
    OutOfRange,
    Repeated,
    MissingField,
    BadIndex,
    NotCanonical,
    UnknownField,
}

// Rule R1: the number of a refusal.
pub fn number_of(r: Refusal) -> u64
    ensures { result ≡ number_of r }
{
    match r {
        Refusal::Truncated => 1,
        Refusal::InvalidVarint => 2,
        Refusal::TagOverflowed => 3,
        Refusal::TooLong => 4,
        Refusal::NoRoom => 5,
        Refusal::BadRecord => 6,
        Refusal::OutOfOrder => 7,
        Refusal::BadCap => 8,
        Refusal::WrongWireType => 9,
        Refusal::OutOfRange => 10,
        Refusal::Repeated => 11,
        Refusal::BadIndex => 12,
        Refusal::MissingField => 13,
        Refusal::NotCanonical => 14,
        Refusal::UnknownField => 15,
    }
}

// Rule T3: the tag and the key of a good record over a source of so many bytes.
pub fn good_head(len: usize, tag: u64, key: u64) -> bool
    ensures { result ≡ good_head len tag key }
{
    if LAST_TAG < tag {
        return false;
    }
    if key < (len as u64) {
        return true;
    }
    if key == NO_KEY {
        return true;
    }
    false
}

// What a core finds at a place of a slice: something and the place after it, or why there is none.
#[derive(Clone, Copy)]
pub enum VarintFound {
    Got(u64, usize),
    Refused(Refusal),
}

#[derive(Clone, Copy)]
pub enum KeyFound {
    Got(Key, usize),
    Refused(Refusal),
}

#[derive(Clone, Copy)]
pub enum ValueFound {
    Got(Value, usize),
    Refused(Refusal),
}

#[derive(Clone, Copy)]
pub enum FieldFound {
    Got(Field, usize),
    Refused(Refusal),
}

// The place that skipping reaches, or why it does not and where the read failed.
#[derive(Clone, Copy)]
pub enum Reached {
    To(usize),
    Refused(Refusal, Fault),
}

// One step of a message.
#[derive(Clone, Copy)]
pub enum Stepped {
    Field(Field, usize),
    End,
    Refused(Refusal),
}

// What a message reader answers: the end and the number of fields, or a refusal, its place, a count, and where the read failed.
#[derive(Clone, Copy)]
pub enum Read {
    Accepted(usize, usize),
    Refused(Refusal, usize, usize, Fault),
}

// What a search from the front answers: the only field of a tag or that there is none, and the number of keys read; or why not.
#[derive(Clone, Copy)]
pub enum Early {
    Found(Field, usize),
    Absent(usize),
    Refused(Refusal),
}

// What a writer answers: the start and the length of what it wrote, or a refusal and the two numbers that stand there instead.
#[derive(Clone, Copy)]
pub enum Written {
    At(usize, usize),
    Refused(Refusal, usize, usize),
}

// What insertion answers: the new count, or a refusal and the number that it carries.
#[derive(Clone, Copy)]
pub enum Inserted {
    Count(usize),
    Refused(Refusal, usize),
}

// What is said of one record behind another: how many bytes it is written as, or why not.
#[derive(Clone, Copy)]
pub enum Weight {
    Bytes(usize),
    Bad(Refusal),
}

// What is said of all records: how much of a budget of bytes they leave, or the first refusal and the number that it carries.
#[derive(Clone, Copy)]
pub enum Weighed {
    Left(usize),
    First(Refusal, usize),
}
