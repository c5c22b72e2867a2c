// The face for C: a function for each entry, with numbers, slices and plain structs; the held reader and what goes through it, `more_at`,
// `copy_message` and a wire type's number have none. Every answer that can be refused is a struct whose first word is the number of rule R1. A wire type
// passes as a number; one above 3 is BadRecord, before all else (R10). `capgauze_exports` exports each function under its name.
#![tactic(auto)]

ghost use Rattle.std.specs.Prelude.{◌≡◌, length as size};
ghost use Rattle.wire.specs.Varint.{encode};
ghost use Rattle.wire.specs.Signed.{to_unsigned, to_signed};
ghost use Rattle.message_payload.specs.Payload.{span_of};
ghost use Rattle.entry_answer.specs.Told.{put_told, varint_told, read_told, picked_told, several_told, early_told, key_len_told, key_told, value_told};
ghost use Rattle.entry_answer.specs.Told.{skipped_told, step_told, written_told, inserted_told};
ghost use Rattle.entry_write.specs.Writers.{encode_message, prepend_message, insert_record};
ghost use Rattle.entry_key.specs.Keys.{decode_key, key_at_front, key_at_end, key_len};
ghost use Rattle.entry_field.specs.Fields.{decode_value, skip_field, step_entry};
ghost use Rattle.entry_varint.specs.Varints.{decode_varint, decode_varint_capped};
ghost use Rattle.entry_answer.specs.Stores.{at_front, at_end};
ghost use Rattle.entry_message.specs.Messages.{read_entry, read_payload, pick_entry, several_entry, early_entry};
ghost use Rattle.index_line.specs.Line.{write_line, read_either};
ghost use Rattle.index_make.specs.Made.{make_index, index_fits};
ghost use Rattle.index_pick.specs.Looked.{pick_indexed};
ghost use Rattle.entry_answer.specs.Told.{run_count_told, run_value_told, supplier_told};
ghost use Rattle.correct_supply.specs.Supplying.{supply_of, supplied_by};
ghost use Rattle.correct_write.specs.Corrected.{write_corrected};
ghost use Rattle.run_read.specs.Runs.{run_count, run_value, read_run};
ghost use Rattle.run_write.specs.RunPlan.{write_run};
ghost use Rattle.edit.specs.Edits.{remove_record, replace_payload, insert_payload};
ghost use Rattle.sounding.specs.Told.{sounding_told};
ghost use Rattle.sounding.specs.Words.{read_sounding};
ghost use Rattle.sounding_graded.specs.Words.{read_graded};
ghost use Rattle.c_graded.specs.Words.{as_graded, grade_of, graded_as};
ghost use Rattle.c_words.specs.Words.{Lent, as_number, as_varint, as_read, as_picked, as_several, as_early, as_part, as_written, as_key, as_value, as_place};
ghost use Rattle.c_words.specs.Words.{as_step, as_sounding};
ghost use Rattle.c_words.specs.Words.{typed_of, key_stored, value_typed, place_typed, stored_told, outcome_told, writing_told, insertion_told, levels_told};
ghost use Rattle.c_words.specs.Words.{index_told, bit_of};
ghost use Rattle.c_words.specs.Words.{as_supplied, place_of};
ghost use Rattle.c_words.specs.Words.{run_told, typed_as, bad_number, bad_pick, bad_wrote};
ghost use Rattle.c_words.specs.Words.{Copied, edit_told};

use c_graded::{GradedWords, Least};
use c_words::{
    KeyWords, LookupWords, Number, Part, PickWords, PlaceWords, ReadWords, SoundingWords,
    StepWords, SupplierWords, Typed, ValueWords, Varint, WrittenWords,
};
use capgauze::{
    Fault, Graded, NewRecord, Put, Record, Refusal, RunCount, RunValue, Skipped, ValueRead, Written,
};

// ---- varints

// How many bytes a number is written as.
pub fn capgauze_encoded_len_varint(v: u64) -> u64
    ensures { result ≡ size (encode v) }
{
    capgauze::encoded_len_varint(v) as u64
}

// A signed number as an unsigned one.
pub fn capgauze_i64_to_unsigned(v: i64) -> u64
    ensures { result ≡ to_unsigned v }
{
    capgauze::i64_to_unsigned(v)
}

// Its inverse.
pub fn capgauze_u64_to_signed(u: u64) -> i64
    ensures { result ≡ to_signed u }
{
    capgauze::u64_to_signed(u)
}

// The varint at a place.
pub fn capgauze_decode_varint(s: &[u8], at: usize) -> Varint
    ensures { as_varint result ≡ varint_told (decode_varint s.now at) }
{
    c_words::varint_words(capgauze::decode_varint(s, at))
}

// The varint of a key or a value under an end.
pub fn capgauze_decode_varint_capped(s: &[u8], at: usize, end: usize) -> Varint
    ensures { as_varint result ≡ varint_told (decode_varint_capped s.now at end) }
{
    c_words::varint_words(capgauze::decode_varint_capped(s, at, end))
}

// A number's bytes at the buffer's front.
pub fn capgauze_encode_varint(v: u64, buf: &mut [u8]) -> Number
    ensures { record { told = as_number result; lent = buf.new } ≡ stored_told (at_front buf.old (encode v)) }
{
    c_words::put_words(capgauze::encode_varint(v, buf))
}

// A number's bytes at the buffer's end.
pub fn capgauze_prepend_varint(v: u64, buf: &mut [u8]) -> Number
    ensures { record { told = as_number result; lent = buf.new } ≡ stored_told (at_end buf.old (encode v)) }
{
    c_words::put_words(capgauze::prepend_varint(v, buf))
}

// ---- keys, values, one field

// The key at a place.
pub fn capgauze_decode_key(s: &[u8], at: usize, end: usize, last: u32) -> KeyWords
    ensures { as_key result ≡ key_told (decode_key s.now at end last) }
{
    c_words::key_words(capgauze::decode_key(s, at, end, last))
}

// A key's bytes at the buffer's front.
pub fn capgauze_encode_key(last: u32, tag: u32, kind: u64, buf: &mut [u8]) -> Number
    ensures { record { told = as_number result; lent = buf.new }
        ≡ key_stored buf.old (typed_of kind) (key_at_front buf.old last tag) }
{
    let Typed::Is(wire) = c_words::typed_of(kind) else {
        return c_words::put_words(Put::Refused(Refusal::BadRecord));
    };
    c_words::put_words(capgauze::encode_key(last, tag, wire, buf))
}

// A key's bytes at the buffer's end.
pub fn capgauze_prepend_key(last: u32, tag: u32, kind: u64, buf: &mut [u8]) -> Number
    ensures { record { told = as_number result; lent = buf.new }
        ≡ key_stored buf.old (typed_of kind) (key_at_end buf.old last tag) }
{
    let Typed::Is(wire) = c_words::typed_of(kind) else {
        return c_words::put_words(Put::Refused(Refusal::BadRecord));
    };
    c_words::put_words(capgauze::prepend_key(last, tag, wire, buf))
}

// How many bytes a key takes.
pub fn capgauze_key_len(last: u32, tag: u32) -> Number
    ensures { as_number result ≡ key_len_told (key_len last tag) }
{
    c_words::key_len_words(capgauze::key_len(last, tag))
}

// The value of a type at a place.
pub fn capgauze_decode_value(s: &[u8], at: usize, end: usize, kind: u64) -> ValueWords
    ensures { as_value result ≡ value_typed at (typed_of kind) (λ w. value_told (decode_value s.now at end w)) }
{
    let Typed::Is(wire) = c_words::typed_of(kind) else {
        let nowhere = Fault { place: 0, bytes: 0 };
        return c_words::value_read_words(ValueRead::Refused(Refusal::BadRecord, at, nowhere));
    };
    c_words::value_read_words(capgauze::decode_value(s, at, end, wire))
}

// The place behind a value and the fields of its tag that follow.
pub fn capgauze_skip_field(s: &[u8], at: usize, end: usize, kind: u64) -> PlaceWords
    ensures { as_place result ≡ place_typed at (typed_of kind) (λ w. skipped_told (skip_field s.now at end w)) }
{
    let Typed::Is(wire) = c_words::typed_of(kind) else {
        let nowhere = Fault { place: 0, bytes: 0 };
        return c_words::skipped_words(Skipped::Refused(Refusal::BadRecord, at, nowhere));
    };
    c_words::skipped_words(capgauze::skip_field(s, at, end, wire))
}

// One step of a message.
pub fn capgauze_step_at(s: &[u8], at: usize, end: usize, last: u32) -> StepWords
    ensures { as_step result ≡ step_told at last (step_entry s.now at end last) }
{
    c_words::step_words(at, last, capgauze::step_at(s, at, end, last))
}

// ---- messages

// A message read into a table.
pub fn capgauze_read_message(s: &[u8], start: usize, end: usize, table: &mut [u64]) -> ReadWords
    ensures { record { told = as_read result; lent = table.new } ≡ outcome_told (read_entry s.now start end table.old) }
{
    c_words::read_words(capgauze::read_message(s, start, end, table))
}

// Where a record's payload stands in the message.
pub fn capgauze_payload_of(s: &[u8], tag: u64, kind: u64, value: u64, length: u64, key: u64) -> Part
    ensures { as_part result ≡ span_of (size s.now) (record { tag = tag; kind = kind; value = value; length = length; key = key }) }
{
    let r = Record {
        tag: tag,
        kind: kind,
        value: value,
        length: length,
        key: key,
    };
    let p = message_payload::payload_span(s.len(), r);
    Part {
        start: p.start as u64,
        length: p.length as u64,
    }
}

// A record's payload read as a message in itself.
// INLINE: handed on to the function for C, so that the reader has one caller and is folded into it; with a second one counts were 7 to 12 % higher.
pub fn capgauze_read_payload(
    s: &[u8],
    tag: u64,
    kind: u64,
    value: u64,
    length: u64,
    key: u64,
    table: &mut [u64],
) -> ReadWords
    ensures { record { told = as_read result; lent = table.new }
        ≡ outcome_told (read_payload s.now (record { tag = tag; kind = kind; value = value; length = length; key = key }) table.old) }
{
    let r = Record {
        tag: tag,
        kind: kind,
        value: value,
        length: length,
        key: key,
    };
    let part = capgauze::payload_of(s, r);
    capgauze_read_message(part, 0, part.len(), table)
}

// The only field of a tag; Repeated where there are more.
pub fn capgauze_pick(s: &[u8], tag: u32) -> PickWords
    ensures { as_picked result ≡ picked_told (pick_entry s.now tag) }
{
    c_words::pick_words(capgauze::pick(s, tag))
}

// How many fields there are of a tag, and the one at a number, counted from 0.
pub fn capgauze_pick_at(s: &[u8], tag: u32, number: usize) -> LookupWords
    ensures { as_several result ≡ several_told (several_entry s.now tag number) }
{
    c_words::several_words(capgauze::pick_at(s, tag, number))
}

// The only field of a tag before the first key above it, and the number of keys read.
pub fn capgauze_pick_early(s: &[u8], tag: u32) -> LookupWords
    ensures { as_early result ≡ early_told (early_entry s.now tag) }
{
    c_words::early_words(capgauze::pick_early(s, tag))
}

// ---- writing

// The message of a table's records at the buffer's front.
pub fn capgauze_encode_message(
    source: &[u8],
    table: &[u64],
    count: usize,
    buf: &mut [u8],
) -> WrittenWords
    ensures { record { told = as_written result; lent = buf.new }
        ≡ writing_told (encode_message source.now table.now count buf.old) }
{
    c_words::written_words(capgauze::encode_message(source, table, count, buf))
}

// The same at the buffer's end.
pub fn capgauze_prepend_message(
    source: &[u8],
    table: &[u64],
    count: usize,
    buf: &mut [u8],
) -> WrittenWords
    ensures { record { told = as_written result; lent = buf.new }
        ≡ writing_told (prepend_message source.now table.now count buf.old) }
{
    c_words::written_words(capgauze::prepend_message(source, table, count, buf))
}

// A new record, with no key, behind all of an equal or lower tag.
pub fn capgauze_insert(
    source: &[u8],
    table: &mut [u64],
    count: usize,
    tag: u64,
    kind: u64,
    value: u64,
    length: u64,
) -> Number
    ensures { record { told = as_number result; lent = table.new }
        ≡ insertion_told (insert_record source.now table.old count (record { tag = tag; kind = kind; value = value; length = length })) }
{
    let r = NewRecord {
        tag: tag,
        kind: kind,
        value: value,
        length: length,
    };
    c_words::inserted_words(capgauze::insert(source, table, count, r))
}

// ---- an index beside a stored message

// The index of a message: the number of its tags, three words each.
pub fn capgauze_make_index(s: &[u8], index: &mut [u64]) -> Number
    ensures { record { told = as_number result; lent = index.new } ≡ index_told (make_index s.now index.old) }
{
    c_words::indexed_words(capgauze::make_index(s, index))
}

// 1 if the first tags of an index are the index of a message, else 0.
pub fn capgauze_index_fits(s: &[u8], index: &[u64], tags: usize) -> u64
    ensures { result ≡ bit_of (index_fits s.now index.now tags) }
{
    if capgauze::index_fits(s, index, tags) {
        1
    } else {
        0
    }
}

// The only field of a tag, through an index.
pub fn capgauze_pick_indexed(s: &[u8], index: &[u64], tags: usize, tag: u32) -> PickWords
    ensures { as_picked result ≡ picked_told (pick_indexed s.now index.now tags tag) }
{
    c_words::pick_words(capgauze::pick_indexed(s, index, tags, tag))
}

// An index as a line of characters.
pub fn capgauze_write_line(index: &[u64], tags: usize, line: &mut [u8]) -> Number
    ensures { record { told = as_number result; lent = line.new } ≡ stored_told (write_line 2 6 index.now tags line.old) }
{
    c_words::put_words(capgauze::write_line(index, tags, line))
}

// A line as an index.
pub fn capgauze_read_line(line: &[u8], message_len: usize, index: &mut [u64]) -> Number
    ensures { record { told = as_number result; lent = index.new } ≡ index_told (read_either message_len line.now index.old) }
{
    c_words::indexed_words(capgauze::read_line(line, message_len, index))
}

// ---- soundings

// A sounding, with its levels in the table, five words a level.
pub fn capgauze_read_sounding(s: &[u8], levels: &mut [u64]) -> SoundingWords
    ensures { record { told = as_sounding result; lent = levels.new } ≡ levels_told (read_sounding s.now levels.old) }
{
    c_words::sounding_words(capgauze::read_sounding(s, levels))
}

// A sounding of the second edition, with its levels in the table, nine words a level, if no field of it is below a grade.
pub fn capgauze_read_graded(s: &[u8], levels: &mut [u64], least: u64) -> GradedWords
    ensures { record { told = as_graded result; lent = levels.new }
        ≡ graded_as levels.old (grade_of least) (λ g. read_graded s.now levels.old g) }
{
    let Least::Is(grade) = c_graded::grade_of(least) else {
        return c_graded::graded_words(Graded::Refused(Refusal::BadRecord));
    };
    c_graded::graded_words(capgauze::read_graded(s, levels, grade))
}

// ---- packed runs

// How many values of a type a slice is.
pub fn capgauze_run_count(s: &[u8], kind: u64) -> Number
    ensures { as_number result ≡ typed_as bad_number (typed_of kind) (λ w. run_count_told (run_count s.now w)) }
{
    let Typed::Is(wire) = c_words::typed_of(kind) else {
        return c_words::run_count_words(RunCount::Refused(Refusal::BadRecord));
    };
    c_words::run_count_words(capgauze::run_count(s, wire))
}

// The value at a number.
pub fn capgauze_run_value(s: &[u8], kind: u64, number: usize) -> PickWords
    ensures { as_picked result ≡ typed_as bad_pick (typed_of kind) (λ w. run_value_told (run_value s.now w number)) }
{
    let Typed::Is(wire) = c_words::typed_of(kind) else {
        return c_words::run_value_words(RunValue::Refused(Refusal::BadRecord));
    };
    c_words::run_value_words(capgauze::run_value(s, wire, number))
}

// All values as records of a table.
pub fn capgauze_read_run(s: &[u8], kind: u64, table: &mut [u64]) -> Number
    ensures { record { told = as_number result; lent = table.new }
        ≡ typed_as (record { told = bad_number; lent = table.old }) (typed_of kind) (λ w. run_told (read_run s.now w table.old)) }
{
    let Typed::Is(wire) = c_words::typed_of(kind) else {
        return c_words::run_count_words(RunCount::Refused(Refusal::BadRecord));
    };
    c_words::run_count_words(capgauze::read_run(s, wire, table))
}

// The run of a table's records at the buffer's front.
pub fn capgauze_write_run(
    source: &[u8],
    table: &[u64],
    count: usize,
    kind: u64,
    buf: &mut [u8],
) -> WrittenWords
    ensures { record { told = as_written result; lent = buf.new }
        ≡ typed_as (record { told = bad_wrote; lent = buf.old }) (typed_of kind) (λ w.
        writing_told (write_run source.now table.now count w buf.old)) }
{
    let Typed::Is(wire) = c_words::typed_of(kind) else {
        return c_words::written_words(Written::Refused(Refusal::BadRecord, 0, 0));
    };
    c_words::written_words(capgauze::write_run(source, table, count, wire, buf))
}

// ---- corrections over an original

// Where the value of a tag stands, in the message that supplies it.
pub fn capgauze_corrected_part(original: &[u8], correction: &[u8], tag: u32) -> Part
    ensures { as_part result ≡ place_of (supply_of original.now correction.now tag) }
{
    c_words::supply_words(correct_supply::supply_of(original, correction, tag))
}

// Which message that is.
pub fn capgauze_corrected_by(original: &[u8], correction: &[u8], tag: u32) -> SupplierWords
    ensures { as_supplied result ≡ supplier_told (supplied_by original.now correction.now tag) }
{
    c_words::supplier_words(capgauze::corrected_by(original, correction, tag))
}

// The original under a correction, as one message at the buffer's front.
pub fn capgauze_write_corrected(original: &[u8], correction: &[u8], buf: &mut [u8]) -> Number
    ensures { record { told = as_number result; lent = buf.new }
        ≡ stored_told (write_corrected original.now correction.now buf.old) }
{
    c_words::put_words(capgauze::write_corrected(original, correction, buf))
}

// ---- a working copy

// A record taken out.
pub fn capgauze_remove_record(room: &[u8], table: &mut [u64], count: usize, index: usize) -> Number
    ensures { record { told = as_number result; lent = table.new }
        ≡ insertion_told (remove_record room.now table.old count index) }
{
    c_words::inserted_words(capgauze::remove_record(room, table, count, index))
}

// Other bytes for a payload.
pub fn capgauze_replace_payload(
    room: &mut [u8],
    table: &mut [u64],
    count: usize,
    index: usize,
    bytes: &[u8],
) -> Number
    ensures { record { told = as_number result; room = room.new; table = table.new }
        ≡ edit_told (replace_payload room.old table.old count index bytes.now) }
{
    c_words::inserted_words(capgauze::replace_payload(room, table, count, index, bytes))
}

// A payload put in behind all of an equal or lower tag.
pub fn capgauze_insert_payload(
    room: &mut [u8],
    table: &mut [u64],
    count: usize,
    tag: u32,
    bytes: &[u8],
) -> Number
    ensures { record { told = as_number result; room = room.new; table = table.new }
        ≡ edit_told (insert_payload room.old table.old count tag bytes.now) }
{
    c_words::inserted_words(capgauze::insert_payload(room, table, count, tag, bytes))
}
