// Packed runs, read: values of one wire type behind one another, without keys. The run is the whole slice. From src/encoding/opaque.rs (`packed`) of bilrost.
#![tactic(auto)]

ghost use Rattle.std.specs.Prelude.{◌≡◌, ◌+◌, ◌/◌, ◌≤◌, ◌<◌, ◌^◌, length, take, drop};
ghost use Rattle.std.proofs.lemmas.List.Edits.{sets};
ghost use Rattle.wire.specs.Limits.{record_words, no_key};
ghost use Rattle.wire.specs.Fixed.{number};
ghost use Rattle.wire.specs.Reading.{value_at};
ghost use Rattle.wire.specs.Table.{words};
ghost use Rattle.wire.specs.declared.WireType.TheVariants.{Varint, LengthDelimited};
ghost use Rattle.run_read.specs.Packed.{packed, run_record};
ghost use Rattle.run_read.specs.Runs.{count_of, numbered_of, run_count, run_value, read_run, into_table, Ready};
ghost use Rattle.run_read.specs.Short.{Reads, going_on, up_to, left_open};
ghost use Rattle.run_read.specs.Widths.{width, wide_type, wide_value, fixed_count};

use entry_answer::{Gated, RunCount, RunValue};
use wire::{NO_KEY, RECORD_WORDS, Record, Refusal, Value, ValueFound, VarintFound, WireType};

// Numbers that were passed: how many, and where the next one begins.
#[derive(Clone, Copy)]
struct Passed {
    count: usize,
    next: usize,
}

// A number of a run, whose end is the slice's.
// INLINE: small enough to be folded into both loops, where the value reader would be a call whose answer comes back through memory.
fn number_from(s: &[u8], at: usize) -> ValueFound
    ensures { result ≡ value_at s.now (length s.now) at Varint }
{
    match varint_read::decode_varint_capped(s, at, s.len()) {
        VarintFound::Got(v, next) => ValueFound::Got(Value::Varint(v), next),
        VarintFound::Refused(r) => ValueFound::Refused(r),
    }
}

// 1 for a byte that goes on, 0 for one that ends a number.
fn goes_on(b: u8) -> usize
    ensures { (result ≡ b / 128) × (result ≤ 1) }
{
    b as usize / 128
}

// How many of the four bytes at a place go on.
// INLINE: without a branch, so that the compiler takes the four as one word.
fn going_on(s: &[u8], at: usize) -> usize
    requires { at + 4 ≤ length s.now }
    ensures { result ≡ going_on s.now at }
{
    goes_on(s[at]) + goes_on(s[at + 1]) + goes_on(s[at + 2]) + goes_on(s[at + 3])
}

// How many bytes go on up to this one, where n do before it.
fn up_to(n: usize, b: u8) -> usize
    requires { n ≤ 2 }
    ensures { (result ≡ up_to n b) × (result ≤ n + 1) }
{
    if b < 128 { 0 } else { n + 1 }
}

// How many bytes go on right before a place, of the last three.
fn left_open(s: &[u8], at: usize) -> usize
    requires { (3 ≤ at) × (at ≤ length s.now) }
    ensures { (result ≡ left_open s.now at) × (result ≤ 3) }
{
    let one = up_to(0, s[at - 3]);
    let two = up_to(one, s[at - 2]);
    up_to(two, s[at - 1])
}

// Numbers passed four bytes at a turn, as long as one of the four ends a number: none of them then has nine bytes, and none can be too large. Behind the
// last turn it goes back to where an unfinished number begins.
// INLINE: with number_from alone counting takes 1.4 times as long for winds, 2.5 times for numbers below 110,000 and 7 times for those below 300.
fn pass_short(s: &[u8], from: usize) -> Passed
    requires { from ≤ length s.now }
    ensures { Reads s.now Varint from result.count result.next }
{
    let mut at = from;
    let mut count: usize = 0;
    while 4 <= s.len() - at {
        let open = going_on(s, at);
        if open == 4 {
            break;
        }
        count += 4 - open;
        at += 4;
    }
    if at == from {
        return Passed {
            count: 0,
            next: from,
        };
    }
    Passed {
        count: count,
        next: at - left_open(s, at),
    }
}

// How many numbers a run has, which is read whole.
fn count_numbers(s: &[u8]) -> RunCount
    ensures { result ≡ count_of (packed s.now Varint) }
{
    let mut p: usize = 0;
    let mut count: usize = 0;
    while p < s.len() {
        let short = pass_short(s, p);
        p = short.next;
        count += short.count;
        if p < s.len() {
            match number_from(s, p) {
                ValueFound::Refused(r) => {
                    return RunCount::Refused(r);
                }
                ValueFound::Got(_, next) => {
                    p = next;
                    count += 1;
                }
            }
        }
    }
    RunCount::Values(count)
}

// How many payloads.
fn count_payloads(s: &[u8]) -> RunCount
    ensures { result ≡ count_of (packed s.now LengthDelimited) }
{
    let mut p: usize = 0;
    let mut count: usize = 0;
    while p < s.len() {
        match field_value::payload_at(s, p, s.len()) {
            ValueFound::Refused(r) => {
                return RunCount::Refused(r);
            }
            ValueFound::Got(_, next) => {
                p = next;
                count += 1;
            }
        }
    }
    RunCount::Values(count)
}

// How many values of n bytes a slice of so many is.
fn count_fixed(len: usize, n: usize) -> RunCount
    requires { 1 ≤ n }
    ensures { result ≡ fixed_count len n }
{
    if len % n == 0 {
        return RunCount::Values(len / n);
    }
    RunCount::Refused(Refusal::Truncated)
}

// How many values a run has, which is read whole. Of fixed values the slice's length tells it.
fn count_values(s: &[u8], wire: WireType) -> RunCount
    ensures { result ≡ count_of (packed s.now wire) }
{
    match wire {
        WireType::Varint => count_numbers(s),
        WireType::LengthDelimited => count_payloads(s),
        WireType::ThirtyTwoBit => count_fixed(s.len(), 4),
        WireType::SixtyFourBit => count_fixed(s.len(), 8),
    }
}

// The value at a number, noted on the way; the run is read whole.
fn find_value(s: &[u8], wire: WireType, number: usize) -> RunValue
    ensures { result ≡ numbered_of (packed s.now wire) number }
{
    let mut p: usize = 0;
    let mut n: usize = 0;
    let mut found = Value::Varint(0);
    while p < s.len() {
        match field_value::decode_value(s, p, s.len(), wire) {
            ValueFound::Refused(r) => {
                return RunValue::Refused(r);
            }
            ValueFound::Got(v, next) => {
                p = next;
                if n == number {
                    found = v;
                }
                n += 1;
            }
        }
    }
    if number < n {
        return RunValue::Found(found);
    }
    RunValue::Absent
}

// A record of a run: all have tag 0 and no key.
fn tagless(kind: u64, value: u64, length: u64) -> Record
    ensures { result ≡ record { tag = 0; kind = kind; value = value; length = length; key = no_key } }
{
    Record {
        tag: 0,
        kind: kind,
        value: value,
        length: length,
        key: NO_KEY,
    }
}

// The record of a value.
fn run_record(v: Value) -> Record
    ensures { result ≡ run_record v }
{
    match v {
        Value::Varint(x) => tagless(0, x, 0),
        Value::LengthDelimited(start, n) => tagless(1, start as u64, n as u64),
        Value::ThirtyTwoBit(x) => tagless(2, x as u64, 4),
        Value::SixtyFourBit(x) => tagless(3, x, 8),
    }
}

// A record's words from word i on.
fn store(table: &mut [u64], i: usize, r: Record)
    requires { i + record_words ≤ length table.old }
    ensures { table.new ≡ sets table.old i (words r) }
{
    table[i] = r.tag;
    table[i + 1] = r.kind;
    table[i + 2] = r.value;
    table[i + 3] = r.length;
    table[i + 4] = r.key;
}

// The records of a run of numbers that is known to be good and to have room.
fn fill_numbers(s: &[u8], table: &mut [u64])
    requires { Ready s.now Varint table.old }
    ensures { table.new ≡ into_table table.old (packed s.now Varint) }
{
    let mut p: usize = 0;
    let mut i: usize = 0;
    while p < s.len() {
        match number_from(s, p) {
            ValueFound::Refused(_) => {
                return;
            }
            ValueFound::Got(v, next) => {
                store(table, i, run_record(v));
                p = next;
                i += RECORD_WORDS;
            }
        }
    }
}

// Those of payloads.
fn fill_payloads(s: &[u8], table: &mut [u64])
    requires { Ready s.now LengthDelimited table.old }
    ensures { table.new ≡ into_table table.old (packed s.now LengthDelimited) }
{
    let mut p: usize = 0;
    let mut i: usize = 0;
    while p < s.len() {
        match field_value::payload_at(s, p, s.len()) {
            ValueFound::Refused(_) => {
                return;
            }
            ValueFound::Got(v, next) => {
                store(table, i, run_record(v));
                p = next;
                i += RECORD_WORDS;
            }
        }
    }
}

fn four(s: &[u8], at: usize) -> u64
    requires { at + 4 ≤ length s.now }
    ensures { (result ≡ number (take 4 (drop at s.now))) × (result < 2 ^ 32) }
{
    field_value::four_bytes(s[at], s[at + 1], s[at + 2], s[at + 3])
}

// The record of the four or eight bytes at a place.
fn fixed_record(s: &[u8], at: usize, wide: bool) -> Record
    requires { at + width wide ≤ length s.now }
    ensures { result ≡ run_record (wide_value wide s.now at) }
{
    let low = four(s, at);
    if wide {
        let high = four(s, at + 4);
        return tagless(3, low + high * 0x1_0000_0000, 8);
    }
    tagless(2, low, 4)
}

fn width_of(wide: bool) -> usize
    ensures { result ≡ width wide }
{
    if wide { 8 } else { 4 }
}

// The records of fixed values: no byte is tested.
// INLINE: called with both widths, and folded in for each: the compiler then stores several records at a time.
fn fill_fixed(s: &[u8], wide: bool, table: &mut [u64])
    requires { Ready s.now (wide_type wide) table.old }
    ensures { table.new ≡ into_table table.old (packed s.now (wide_type wide)) }
{
    let n = width_of(wide);
    let mut p: usize = 0;
    let mut i: usize = 0;
    while p < s.len() {
        store(table, i, fixed_record(s, p, wide));
        p += n;
        i += RECORD_WORDS;
    }
}

// The records of a run that is known to be good and to have room.
fn fill(s: &[u8], wire: WireType, table: &mut [u64])
    requires { Ready s.now wire table.old }
    ensures { table.new ≡ into_table table.old (packed s.now wire) }
{
    match wire {
        WireType::Varint => fill_numbers(s, table),
        WireType::LengthDelimited => fill_payloads(s, table),
        WireType::ThirtyTwoBit => fill_fixed(s, false, table),
        WireType::SixtyFourBit => fill_fixed(s, true, table),
    }
}

// How many values of a wire type a slice is.
pub fn run_count(s: &[u8], wire: WireType) -> RunCount
    ensures { result ≡ run_count s.now wire }
{
    if let Gated::Shut(r) = entry_answer::gate(s.len(), 0, s.len()) {
        return RunCount::Refused(r);
    }
    count_values(s, wire)
}

// The value at a number, counted from 0.
pub fn run_value(s: &[u8], wire: WireType, number: usize) -> RunValue
    ensures { result ≡ run_value s.now wire number }
{
    if let Gated::Shut(r) = entry_answer::gate(s.len(), 0, s.len()) {
        return RunValue::Refused(r);
    }
    find_value(s, wire, number)
}

// All values as records of a table. The run is read whole first; a refusal leaves the table as it was.
pub fn read_run(s: &[u8], wire: WireType, table: &mut [u64]) -> RunCount
    ensures { record { answer = result; table = table.new } ≡ read_run s.now wire table.old }
{
    if let Gated::Shut(r) = entry_answer::gate(s.len(), 0, s.len()) {
        return RunCount::Refused(r);
    }
    match count_values(s, wire) {
        RunCount::Refused(r) => RunCount::Refused(r),
        RunCount::Values(n) => {
            if table.len() / RECORD_WORDS < n {
                return RunCount::Refused(Refusal::NoRoom);
            }
            fill(s, wire, table);
            RunCount::Values(n)
        }
    }
}
