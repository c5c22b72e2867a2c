// The words that C is handed for each answer: plain structs whose first word is the number of rule R1. `told` says what the others are.
#![tactic(auto)]

ghost use Rattle.std.specs.Prelude.{◌≡◌};
ghost use Rattle.wire.specs.Table.{kind_word, value_word, length_word};
ghost use Rattle.entry_answer.specs.Told.{put_told, varint_told, read_told, picked_told, several_told, early_told, key_len_told, key_told, value_told};
ghost use Rattle.entry_answer.specs.Told.{skipped_told, step_told, written_told, inserted_told, indexed_told};
ghost use Rattle.entry_answer.specs.Told.{run_count_told, run_value_told, supplier_told};
ghost use Rattle.sounding.specs.Told.{sounding_told};
ghost use Rattle.c_words.specs.Words.{as_number, as_varint, as_read, as_picked, as_several, as_early, as_written, as_key, as_value, as_place, as_step, as_sounding};
ghost use Rattle.c_words.specs.Words.{as_part, as_supplied, place_of};
ghost use Rattle.c_words.specs.Words.{typed_of, found_words, none_words, uncounted_of};

use correct_supply::Supply;
use entry_answer::{
    Indexed, KeyLength, KeyRead, Picked, Put, RunCount, RunValue, Several, Skipped, Step, Supplier,
    ValueRead, VarintRead,
};
use sounding::Sounding;
use wire::{Early, Field, Inserted, Read, Value, WireType, Written};

// A length or a count.
#[repr(C)]
#[derive(Clone, Copy)]
pub struct Number {
    pub number: u64,
    pub value: u64,
}

#[repr(C)]
#[derive(Clone, Copy)]
pub struct Varint {
    pub number: u64,
    pub value: u64,
    pub place: u64,
    pub bytes: u64,
}

#[repr(C)]
#[derive(Clone, Copy)]
pub struct ReadWords {
    pub number: u64,
    pub place: u64,
    pub count: u64,
    pub failing: u64,
    pub bytes: u64,
}

#[repr(C)]
#[derive(Clone, Copy)]
pub struct PickWords {
    pub number: u64,
    pub found: u64,
    pub kind: u64,
    pub value: u64,
    pub length: u64,
}

// A lookup that counts: how many fields of the tag there are, or how many keys were read; and the field that was found.
#[repr(C)]
#[derive(Clone, Copy)]
pub struct LookupWords {
    pub number: u64,
    pub many: u64,
    pub found: u64,
    pub kind: u64,
    pub value: u64,
    pub length: u64,
}

#[repr(C)]
#[derive(Clone, Copy)]
pub struct Part {
    pub start: u64,
    pub length: u64,
}

#[repr(C)]
#[derive(Clone, Copy)]
pub struct KeyWords {
    pub number: u64,
    pub tag: u64,
    pub kind: u64,
    pub place: u64,
    pub failing: u64,
    pub bytes: u64,
}

#[repr(C)]
#[derive(Clone, Copy)]
pub struct ValueWords {
    pub number: u64,
    pub value: u64,
    pub length: u64,
    pub place: u64,
    pub failing: u64,
    pub bytes: u64,
}

#[repr(C)]
#[derive(Clone, Copy)]
pub struct PlaceWords {
    pub number: u64,
    pub place: u64,
    pub failing: u64,
    pub bytes: u64,
}

#[repr(C)]
#[derive(Clone, Copy)]
pub struct StepWords {
    pub number: u64,
    pub found: u64,
    pub tag: u64,
    pub kind: u64,
    pub value: u64,
    pub length: u64,
    pub place: u64,
    pub failing: u64,
    pub bytes: u64,
}

#[repr(C)]
#[derive(Clone, Copy)]
pub struct WrittenWords {
    pub number: u64,
    pub start: u64,
    pub length: u64,
}

// What a number that a caller gave as a kind is: a wire type, or none.
#[derive(Clone, Copy)]
pub enum Typed {
    Is(WireType),
    Unknown,
}

#[repr(C)]
#[derive(Clone, Copy)]
pub struct SoundingWords {
    pub number: u64,
    pub station: u64,
    pub launch: u64,
    pub levels: u64,
}

// Which message supplies a tag: 1 the original, 2 the correction, 0 none.
#[repr(C)]
#[derive(Clone, Copy)]
pub struct SupplierWords {
    pub number: u64,
    pub supplier: u64,
}

// A kind's wire type, if it is one.
pub fn typed_of(kind: u64) -> Typed
    ensures { result ≡ typed_of kind }
{
    match kind {
        0 => Typed::Is(WireType::Varint),
        1 => Typed::Is(WireType::LengthDelimited),
        2 => Typed::Is(WireType::ThirtyTwoBit),
        3 => Typed::Is(WireType::SixtyFourBit),
        _ => Typed::Unknown,
    }
}

// ---- the words of each answer

#[derive(Clone, Copy)]
struct ValueParts {
    kind: u64,
    value: u64,
    length: u64,
}

// A value as three words of its record: its kind, its value and its length.
fn value_words(v: Value) -> ValueParts
    ensures { (result.kind ≡ kind_word v) × (result.value ≡ value_word v) × (result.length ≡ length_word v) }
{
    match v {
        Value::Varint(n) => ValueParts {
            kind: 0,
            value: n,
            length: 0,
        },
        Value::LengthDelimited(p, n) => ValueParts {
            kind: 1,
            value: p as u64,
            length: n as u64,
        },
        Value::ThirtyTwoBit(n) => ValueParts {
            kind: 2,
            value: n as u64,
            length: 4,
        },
        Value::SixtyFourBit(n) => ValueParts {
            kind: 3,
            value: n,
            length: 8,
        },
    }
}

// The number of bytes put.
pub fn put_words(p: Put) -> Number
    ensures { as_number result ≡ put_told p }
{
    match p {
        Put::Done(n) => Number {
            number: 0,
            value: n as u64,
        },
        Put::Refused(r) => Number {
            number: wire::number_of(r),
            value: 0,
        },
    }
}

// A number and the place after it.
pub fn varint_words(v: VarintRead) -> Varint
    ensures { as_varint result ≡ varint_told v }
{
    match v {
        VarintRead::Got(n, next) => Varint {
            number: 0,
            value: n,
            place: next as u64,
            bytes: 0,
        },
        VarintRead::Refused(r, at, n) => Varint {
            number: wire::number_of(r),
            value: 0,
            place: at as u64,
            bytes: n as u64,
        },
    }
}

// The place reached and the number of fields.
pub fn read_words(m: Read) -> ReadWords
    ensures { as_read result ≡ read_told m }
{
    match m {
        Read::Accepted(p, n) => ReadWords {
            number: 0,
            place: p as u64,
            count: n as u64,
            failing: 0,
            bytes: 0,
        },
        Read::Refused(r, p, n, f) => ReadWords {
            number: wire::number_of(r),
            place: p as u64,
            count: n as u64,
            failing: f.place as u64,
            bytes: f.bytes as u64,
        },
    }
}

// A tag, a wire type and the place after the key.
pub fn key_words(k: KeyRead) -> KeyWords
    ensures { as_key result ≡ key_told k }
{
    match k {
        KeyRead::Got(key, next) => {
            let wire = key.wire;
            KeyWords {
                number: 0,
                tag: key.tag as u64,
                kind: field_key::wire_number(wire),
                place: next as u64,
                failing: 0,
                bytes: 0,
            }
        }
        KeyRead::Refused(r, at, last, f) => KeyWords {
            number: wire::number_of(r),
            tag: last as u64,
            kind: 0,
            place: at as u64,
            failing: f.place as u64,
            bytes: f.bytes as u64,
        },
    }
}

// A value's last two words and the place after it.
pub fn value_read_words(v: ValueRead) -> ValueWords
    ensures { as_value result ≡ value_told v }
{
    match v {
        ValueRead::Got(x, next) => {
            let w = value_words(x);
            ValueWords {
                number: 0,
                value: w.value,
                length: w.length,
                place: next as u64,
                failing: 0,
                bytes: 0,
            }
        }
        ValueRead::Refused(r, at, f) => ValueWords {
            number: wire::number_of(r),
            value: 0,
            length: 0,
            place: at as u64,
            failing: f.place as u64,
            bytes: f.bytes as u64,
        },
    }
}

// The place reached.
pub fn skipped_words(k: Skipped) -> PlaceWords
    ensures { as_place result ≡ skipped_told k }
{
    match k {
        Skipped::To(q) => PlaceWords {
            number: 0,
            place: q as u64,
            failing: 0,
            bytes: 0,
        },
        Skipped::Refused(r, at, f) => PlaceWords {
            number: wire::number_of(r),
            place: at as u64,
            failing: f.place as u64,
            bytes: f.bytes as u64,
        },
    }
}

// A field and the place after it, or the place and the last tag that were given.
pub fn step_words(at: usize, last: u32, k: Step) -> StepWords
    ensures { as_step result ≡ step_told at last k }
{
    match k {
        Step::Field(f, next) => {
            let v = f.value;
            let w = value_words(v);
            StepWords {
                number: 0,
                found: 1,
                tag: f.tag as u64,
                kind: w.kind,
                value: w.value,
                length: w.length,
                place: next as u64,
                failing: 0,
                bytes: 0,
            }
        }
        Step::End => no_field(0, at, last, 0, 0),
        Step::Refused(r, p, t, f) => no_field(wire::number_of(r), p, t, f.place, f.bytes),
    }
}

// The end, or a refusal: no field, a place and a last tag; and where the read failed.
fn no_field(number: u64, place: usize, tag: u32, failing: usize, bytes: usize) -> StepWords
    ensures { as_step result
        ≡ record { number = number; found = 0; tag = tag; kind = 0; value = 0; length = 0; place = place; failing = failing; bytes = bytes } }
{
    StepWords {
        number: number,
        found: 0,
        tag: tag as u64,
        kind: 0,
        value: 0,
        length: 0,
        place: place as u64,
        failing: failing as u64,
        bytes: bytes as u64,
    }
}

// A length.
pub fn key_len_words(m: KeyLength) -> Number
    ensures { as_number result ≡ key_len_told m }
{
    match m {
        KeyLength::Length(n) => Number {
            number: 0,
            value: n as u64,
        },
        KeyLength::Refused(r) => Number {
            number: wire::number_of(r),
            value: 0,
        },
    }
}

// Where the bytes start, and how many there are.
pub fn written_words(w: Written) -> WrittenWords
    ensures { as_written result ≡ written_told w }
{
    match w {
        Written::At(p, n) => WrittenWords {
            number: 0,
            start: p as u64,
            length: n as u64,
        },
        Written::Refused(r, p, n) => WrittenWords {
            number: wire::number_of(r),
            start: p as u64,
            length: n as u64,
        },
    }
}

// The new number of records.
pub fn inserted_words(i: Inserted) -> Number
    ensures { as_number result ≡ inserted_told i }
{
    match i {
        Inserted::Count(n) => Number {
            number: 0,
            value: n as u64,
        },
        Inserted::Refused(r, n) => Number {
            number: wire::number_of(r),
            value: n as u64,
        },
    }
}

// A field that was found, and how many there are.
fn found_words(many: usize, f: Field) -> LookupWords
    ensures { result ≡ found_words many f }
{
    let v = f.value;
    let w = value_words(v);
    LookupWords {
        number: 0,
        many: many as u64,
        found: 1,
        kind: w.kind,
        value: w.value,
        length: w.length,
    }
}

// No field: none there, or a refusal.
fn none_words(number: u64, many: usize) -> LookupWords
    ensures { result ≡ none_words number many }
{
    LookupWords {
        number: number,
        many: many as u64,
        found: 0,
        kind: 0,
        value: 0,
        length: 0,
    }
}

// The same without the count.
fn uncounted(w: LookupWords) -> PickWords
    ensures { result ≡ uncounted_of w }
{
    PickWords {
        number: w.number,
        found: w.found,
        kind: w.kind,
        value: w.value,
        length: w.length,
    }
}

// The only field of a tag.
pub fn pick_words(p: Picked) -> PickWords
    ensures { as_picked result ≡ picked_told p }
{
    match p {
        Picked::Found(f) => uncounted(found_words(1, f)),
        Picked::Absent => uncounted(none_words(0, 0)),
        Picked::Refused(r) => uncounted(none_words(wire::number_of(r), 0)),
    }
}

// How many fields there are of a tag, and one of them.
pub fn several_words(p: Several) -> LookupWords
    ensures { as_several result ≡ several_told p }
{
    match p {
        Several::Found(n, f) => found_words(n, f),
        Several::Absent(n) => none_words(0, n),
        Several::Refused(r) => none_words(wire::number_of(r), 0),
    }
}

// How many keys were read, and the only field of a tag.
pub fn early_words(p: Early) -> LookupWords
    ensures { as_early result ≡ early_told p }
{
    match p {
        Early::Found(f, n) => found_words(n, f),
        Early::Absent(n) => none_words(0, n),
        Early::Refused(r) => none_words(wire::number_of(r), 0),
    }
}

// The number of tags of an index.
pub fn indexed_words(x: Indexed) -> Number
    ensures { as_number result ≡ indexed_told x }
{
    match x {
        Indexed::Tags(n) => Number {
            number: 0,
            value: n as u64,
        },
        Indexed::Refused(r) => Number {
            number: wire::number_of(r),
            value: 0,
        },
    }
}

// A station, a launch and the number of levels.
pub fn sounding_words(a: Sounding) -> SoundingWords
    ensures { as_sounding result ≡ sounding_told a }
{
    match a {
        Sounding::Read(h) => SoundingWords {
            number: 0,
            station: h.station,
            launch: h.launch,
            levels: h.levels as u64,
        },
        Sounding::Refused(r) => SoundingWords {
            number: wire::number_of(r),
            station: 0,
            launch: 0,
            levels: 0,
        },
    }
}

// The number of values of a run.
pub fn run_count_words(x: RunCount) -> Number
    ensures { as_number result ≡ run_count_told x }
{
    match x {
        RunCount::Values(n) => Number {
            number: 0,
            value: n as u64,
        },
        RunCount::Refused(r) => Number {
            number: wire::number_of(r),
            value: 0,
        },
    }
}

// The value of a run at a number.
pub fn run_value_words(x: RunValue) -> PickWords
    ensures { as_picked result ≡ run_value_told x }
{
    match x {
        RunValue::Found(v) => uncounted(found_words(1, Field { tag: 0, value: v })),
        RunValue::Absent => uncounted(none_words(0, 0)),
        RunValue::Refused(r) => uncounted(none_words(wire::number_of(r), 0)),
    }
}

// Which message supplies a tag.
pub fn supplier_words(x: Supplier) -> SupplierWords
    ensures { as_supplied result ≡ supplier_told x }
{
    match x {
        Supplier::Original => SupplierWords {
            number: 0,
            supplier: 1,
        },
        Supplier::Correction => SupplierWords {
            number: 0,
            supplier: 2,
        },
        Supplier::Absent => SupplierWords {
            number: 0,
            supplier: 0,
        },
        Supplier::Refused(r) => SupplierWords {
            number: wire::number_of(r),
            supplier: 0,
        },
    }
}

// Where a tag's value stands in the message that supplies it.
pub fn supply_words(x: Supply) -> Part
    ensures { as_part result ≡ place_of x }
{
    match x {
        Supply::Original(p) => Part {
            start: p.start as u64,
            length: p.length as u64,
        },
        Supply::Correction(p) => Part {
            start: p.start as u64,
            length: p.length as u64,
        },
        Supply::Absent => Part {
            start: 0,
            length: 0,
        },
        Supply::Refused(_) => Part {
            start: 0,
            length: 0,
        },
    }
}
