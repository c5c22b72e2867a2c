// Packed runs, written: records tested and measured, then their values put one behind the other, without keys.
// From src/encoding/opaque.rs (`packed`) of bilrost.
#![tactic(auto)]

ghost use Rattle.std.specs.Prelude.{◌≡◌, ◌+◌, ◌-◌, ◌≤◌, ◌<◌, ◌^◌, [], ◌∷◌, length};
ghost use Rattle.std.proofs.lemmas.List.Edits.{sets};
ghost use Rattle.place.specs.Spans.{Spans};
ghost use Rattle.wire.specs.Fixed.{fixed};
ghost use Rattle.wire.specs.Limits.{message_limit, record_words};
ghost use Rattle.wire.specs.Numbers.{kind_of};
ghost use Rattle.wire.specs.Table.{room};
ghost use Rattle.wire.specs.Varint.{encode};
ghost use Rattle.write_record.specs.Records.{value_bytes, value_size};
ghost use Rattle.write_record.specs.RecordLaws.{Sound};
ghost use Rattle.write_message.specs.Writing.{fitted, spent, Writing};
ghost use Rattle.run_read.specs.Widths.{width, wide_type};
ghost use Rattle.run_write.specs.RunPlan.{run_weigh, run_checked, run_bytes, run_plan, write_run};
ghost use Rattle.run_write.specs.RunLaws.{Ready};
ghost use Rattle.run_write.specs.Exact.{words_at, high_of, left_over, Plain};

use wire::{
    MESSAGE_LIMIT, NO_KEY, RECORD_WORDS, Record, Refusal, Weighed, Weight, WireType, Written,
};

// ---- measured

// How many bytes a value of a kind is.
fn value_len(kind: u64, value: u64, length: u64) -> usize
    requires { kind ≡ 1 → length < 2 ^ 32 }
    ensures { result ≡ value_size kind value length }
{
    if kind < 2 {
        if kind == 0 {
            return varint_write::count_len(value);
        }
        return varint_write::count_len(length) + length as usize;
    }
    if kind == 2 {
        return 4;
    }
    8
}

// What is said of one record, over a source of size bytes: its value's bytes, or that it is none of the run.
// INLINE: it asks is_good and not weigh_record, which with a second caller would be a call for every writer.
fn weigh_one(size: u32, kind: u64, r: Record) -> Weight
    ensures { result ≡ run_weigh size kind r }
{
    if r.tag != 0 {
        return Weight::Bad(Refusal::BadRecord);
    }
    if r.kind != kind {
        return Weight::Bad(Refusal::BadRecord);
    }
    if write_record::is_good(size, r) {
        return Weight::Bytes(value_len(r.kind, r.value, r.length));
    }
    Weight::Bad(Refusal::BadRecord)
}

// What is left of a budget.
fn spend(left: usize, n: usize) -> usize
    ensures { result ≡ left - n }
{
    if n < left {
        return left - n;
    }
    0
}

fn width_of(wide: bool) -> usize
    ensures { result ≡ width wide }
{
    if wide { 8 } else { 4 }
}

fn kind_of(wide: bool) -> u64
    ensures { result ≡ kind_of (wide_type wide) }
{
    if wide { 3 } else { 2 }
}

// What a value has above its width.
fn high_of(wide: bool, value: u64) -> u64
    ensures { result ≡ high_of wide value }
{
    if wide { 0 } else { value / 0x1_0000_0000 }
}

// The record whose words stand from a place on.
fn words_at(table: &[u64], at: usize) -> Record
    requires { at + record_words ≤ length table.now }
    ensures { result ≡ words_at table.now at }
{
    Record {
        tag: table[at],
        kind: table[at + 1],
        value: table[at + 2],
        length: table[at + 3],
        key: table[at + 4],
    }
}

// The bits in which a record's words are not those of a fixed value without a key.
fn left_over(wide: bool, r: Record) -> u64
    ensures { result ≡ left_over wide r }
{
    let kind = r.kind ^ kind_of(wide);
    let length = r.length ^ width_of(wide) as u64;
    r.tag | kind | length | high_of(wide, r.value) | (r.key ^ NO_KEY)
}

// As many words as hold fixed values without keys, two records at a turn. Where it stops they are looked at one by one.
// INLINE: one test for two records; with a test for each word writing R4 and R8 takes 1.5 times the instructions.
fn plain_words(table: &[u64], count: usize, wide: bool) -> usize
    requires { count ≤ room table.now }
    ensures { Plain table.now count wide result }
{
    let end = 2 * RECORD_WORDS * (count / 2);
    let mut at: usize = 0;
    while at < end {
        let first = left_over(wide, words_at(table, at));
        let second = left_over(wide, words_at(table, at + RECORD_WORDS));
        if 0 < first | second {
            return at;
        }
        at += 2 * RECORD_WORDS;
    }
    at
}

// The tests of fixed values; what they leave of the budget is told by the count.
// INLINE: called with both widths, and folded in for each. It goes by words, so that a turn counts one number; and it asks is_good, since with another caller
// weigh_one would be a call.
fn weigh_fixed(source: &[u8], table: &[u64], count: usize, wide: bool) -> Weighed
    requires { (length source.now ≤ message_limit) × (count ≤ room table.now) }
    ensures { result
        ≡ spent (message_limit + 1) (length (run_bytes source.now table.now count))
        (run_checked message_limit source.now table.now count (kind_of (wide_type wide))) }
{
    let size = source.len() as u32;
    let kind = kind_of(wide);
    let n = width_of(wide);
    let end = RECORD_WORDS * count;
    let mut at = plain_words(table, count, wide);
    while at < end {
        let r = words_at(table, at);
        if 0 < r.tag {
            return Weighed::First(Refusal::BadRecord, at / RECORD_WORDS);
        }
        if kind != r.kind {
            return Weighed::First(Refusal::BadRecord, at / RECORD_WORDS);
        }
        if !write_record::is_good(size, r) {
            return Weighed::First(Refusal::BadRecord, at / RECORD_WORDS);
        }
        at += RECORD_WORDS;
    }
    if MESSAGE_LIMIT / n < count {
        return Weighed::Left(0);
    }
    Weighed::Left(MESSAGE_LIMIT + 1 - n * count)
}

// All tests but that of the output, and what the values leave of a budget of one byte more than the limit. It falls to 0 and stays there, so that nothing
// wraps, however often payloads overlap.
fn weigh(source: &[u8], table: &[u64], count: usize, kind: u64) -> Weighed
    ensures { result
        ≡ spent (message_limit + 1) (length (run_bytes source.now table.now count))
        (run_checked message_limit source.now table.now count kind) }
{
    if MESSAGE_LIMIT < source.len() {
        return Weighed::First(Refusal::TooLong, 0);
    }
    let records = table.len() / RECORD_WORDS;
    if records < count {
        return Weighed::First(Refusal::BadRecord, records);
    }
    if kind == 2 {
        return weigh_fixed(source, table, count, false);
    }
    if kind == 3 {
        return weigh_fixed(source, table, count, true);
    }
    let size = source.len() as u32;
    let mut left = MESSAGE_LIMIT + 1;
    let mut i: usize = 0;
    while i < count {
        let r = write_record::record_at(table, i);
        match weigh_one(size, kind, r) {
            Weight::Bad(why) => return Weighed::First(why, i),
            Weight::Bytes(n) => left = spend(left, n),
        }
        i += 1;
    }
    Weighed::Left(left)
}

// How long the run is, for a buffer of so many bytes. One that is too short is told the length that is needed.
fn fit(source: &[u8], table: &[u64], count: usize, kind: u64, bytes: usize) -> Written
    ensures { result ≡ fitted bytes (run_plan message_limit source.now table.now count kind) }
{
    match weigh(source, table, count, kind) {
        Weighed::First(why, i) => Written::Refused(why, i, 0),
        Weighed::Left(left) => {
            if left == 0 {
                return Written::Refused(Refusal::TooLong, 0, 0);
            }
            let n = MESSAGE_LIMIT + 1 - left;
            if bytes < n {
                return Written::Refused(Refusal::NoRoom, 0, n);
            }
            Written::At(0, n)
        }
    }
}

// ---- put: each function takes the place where its bytes start, and answers the one behind them

fn put_pair(buf: &mut [u8], at: usize, low: u64, high: u64)
    requires { (low < 256) × (high < 256) × (at + 2 ≤ length buf.old) }
    ensures { buf.new ≡ sets buf.old at (low ∷ high ∷ []) }
{
    buf[at] = low as u8;
    buf[at + 1] = high as u8;
}

// A number, for which there is room.
// INLINE: up to three bytes are put here, and not by a call.
fn put_number(buf: &mut [u8], at: usize, v: u64) -> usize
    requires { at + length (encode v) ≤ length buf.old }
    ensures { Spans buf.old at result (encode v) buf.new }
{
    if v < 128 {
        buf[at] = v as u8;
        return at + 1;
    }
    let x = v / 128 - 1;
    if x < 128 {
        put_pair(buf, at, 128 + v % 128, x);
        return at + 2;
    }
    let y = x / 128 - 1;
    if y < 128 {
        put_pair(buf, at, 128 + v % 128, 128 + x % 128);
        buf[at + 2] = y as u8;
        return at + 3;
    }
    varint_write::put_varint(buf, at, v)
}

// The four low bytes of a number, lowest first.
fn put_four(buf: &mut [u8], at: usize, v: u64)
    requires { at + 4 ≤ length buf.old }
    ensures { buf.new ≡ sets buf.old at (fixed 4 v) }
{
    let a = v / 256;
    let b = a / 256;
    let c = b / 256;
    buf[at] = (v % 256) as u8;
    buf[at + 1] = (a % 256) as u8;
    buf[at + 2] = (b % 256) as u8;
    buf[at + 3] = (c % 256) as u8;
}

fn put_value(buf: &mut [u8], at: usize, source: &[u8], kind: u64, r: Record) -> usize
    requires { Sound (length source.now) r × (r.kind ≡ kind) × (at + length (value_bytes source.now r) ≤ length buf.old) }
    ensures { Spans buf.old at result (value_bytes source.now r) buf.new }
{
    if kind < 2 {
        if kind == 0 {
            return put_number(buf, at, r.value);
        }
        let next = put_number(buf, at, r.length);
        return place::put_part(buf, next, source, r.value as usize, r.length as usize);
    }
    put_four(buf, at, r.value);
    if kind == 2 {
        return at + 4;
    }
    put_four(buf, at + 4, r.value / 0x1_0000_0000);
    at + 8
}

fn put_all(buf: &mut [u8], source: &[u8], table: &[u64], count: usize, kind: u64) -> usize
    requires { Ready source.now table.now count kind × (length (run_bytes source.now table.now count) ≤ length buf.old) }
    ensures { Spans buf.old 0 result (run_bytes source.now table.now count) buf.new }
{
    let records = &table[0..RECORD_WORDS * count];
    let mut at: usize = 0;
    let mut i: usize = 0;
    while i < count {
        let r = write_record::record_at(records, i);
        at = put_value(buf, at, source, kind, r);
        i += 1;
    }
    at
}

// The run of a table's first records, all of tag 0 and of one wire type, over the source that holds their payloads, at the buffer's front. A refusal leaves
// the buffer as it was.
pub fn write_run(
    source: &[u8],
    table: &[u64],
    count: usize,
    wire: WireType,
    buf: &mut [u8],
) -> Written
    ensures { record { answer = result; buf = buf.new } ≡ write_run source.now table.now count wire buf.old }
{
    let kind = field_key::wire_number(wire);
    match fit(source, table, count, kind, buf.len()) {
        Written::Refused(why, start, n) => Written::Refused(why, start, n),
        Written::At(_, _) => Written::At(0, put_all(buf, source, table, count, kind)),
    }
}
