// One record: taken from a table; over a source, whether it is good, and how many bytes it is written as.
// From src/encoding/mod.rs (RuntimeTagMeasurer) and opaque.rs (value_encoded_len) of bilrost; the tests are ours.
#![tactic(auto)]

ghost use Rattle.std.specs.Prelude.{◌≡◌, ◌<◌, ◌≤◌, length};
ghost use Rattle.wire.specs.Varint.{encode};
ghost use Rattle.wire.specs.Table.{good_head, good};
ghost use Rattle.write_record.specs.Records.{weigh_value, weigh};
ghost use Rattle.write_record.specs.Mixed.{most_of, least_len, spare_len, number_in, if_number};
ghost use Rattle.write_record.specs.Taken.{record_in};

use wire::{LAST_TAG, RECORD_WORDS, Record, Refusal, Weight};

// Record i of a table; all words 0 where the table has no room for it.
// INLINE: a caller that tests its count against the table's records, ahead of its loop, pays for no test here.
pub fn record_at(table: &[u64], i: usize) -> Record
    ensures { result ≡ record_in table.now i }
{
    if i < table.len() / RECORD_WORDS {
        let at = RECORD_WORDS * i;
        return Record {
            tag: table[at],
            kind: table[at + 1],
            value: table[at + 2],
            length: table[at + 3],
            key: table[at + 4],
        };
    }
    Record {
        tag: 0,
        kind: 0,
        value: 0,
        length: 0,
        key: 0,
    }
}

// A key: nearly all are one byte, so that the test is foreseen. Values are not: see `count_len`.
fn number_len(v: u64) -> usize
    ensures { result ≡ length (encode v) }
{
    if v < 128 {
        return 1;
    }
    varint_write::encoded_len_varint(v)
}

// The bytes of a value, over a source of size bytes, or that its words are not those of a good record. A payload is tested with no sum,
// which could wrap.
fn weigh_value(size: u32, kind: u64, value: u64, length: u64) -> Weight
    ensures { result ≡ weigh_value size kind value length }
{
    if kind < 2 {
        if kind == 0 {
            if length == 0 {
                return Weight::Bytes(varint_write::count_len(value));
            }
            return Weight::Bad(Refusal::BadRecord);
        }
        if (size as u64) < value {
            return Weight::Bad(Refusal::BadRecord);
        }
        if length <= (size as u64) - value {
            return Weight::Bytes(varint_write::count_len(length) + length as usize);
        }
        return Weight::Bad(Refusal::BadRecord);
    }
    if kind == 2 {
        if length == 4 {
            if value < 0x1_0000_0000 {
                return Weight::Bytes(4);
            }
            return Weight::Bad(Refusal::BadRecord);
        }
        return Weight::Bad(Refusal::BadRecord);
    }
    if kind == 3 {
        if length == 8 {
            return Weight::Bytes(8);
        }
        return Weight::Bad(Refusal::BadRecord);
    }
    Weight::Bad(Refusal::BadRecord)
}

// ---- the same with no branch on the type

// The highest value of a type.
// INLINE: an array and not tests, of which the compiler makes branches: with them measuring X takes 2.4 times as long.
fn most_of(size: u32, kind: u64) -> u64
    requires { kind < 4 }
    ensures { result ≡ most_of size kind }
{
    let most = [
        0xffff_ffff_ffff_ffff,
        size as u64,
        0xffff_ffff,
        0xffff_ffff_ffff_ffff,
    ];
    let k = kind as usize;
    most[k]
}

// The least length of a type.
fn least_len(kind: u64) -> u64
    requires { kind < 4 }
    ensures { result ≡ least_len kind }
{
    if kind < 2 {
        return 0;
    }
    4 * kind - 4
}

// By how much the length may be more.
fn spare_len(size: u32, kind: u64, value: u64) -> u64
    requires { value ≤ most_of size kind }
    ensures { result ≡ spare_len size kind value }
{
    if kind == 1 {
        return (size as u64) - value;
    }
    0
}

// The number that is written as a varint, where there is one.
fn number_in(kind: u64, value: u64, length: u64) -> u64
    ensures { result ≡ number_in kind value length }
{
    if kind == 0 {
        return value;
    }
    length
}

fn if_number(kind: u64, n: usize) -> usize
    ensures { result ≡ if_number kind n }
{
    if kind < 2 {
        return n;
    }
    0
}

// INLINE: for records whose types no branch foresees; write_message's `is_mixed` says when, and what it is worth.
fn weigh_mixed(size: u32, kind: u64, value: u64, length: u64) -> Weight
    ensures { result ≡ weigh_value size kind value length }
{
    if 3 < kind {
        return Weight::Bad(Refusal::BadRecord);
    }
    if most_of(size, kind) < value {
        return Weight::Bad(Refusal::BadRecord);
    }
    let least = least_len(kind);
    if length < least {
        return Weight::Bad(Refusal::BadRecord);
    }
    if spare_len(size, kind, value) < length - least {
        return Weight::Bad(Refusal::BadRecord);
    }
    let n = if_number(
        kind,
        varint_write::count_len(number_in(kind, value, length)),
    );
    Weight::Bytes(n + length as usize)
}

fn weigh_either(size: u32, kind: u64, value: u64, length: u64, mixed: bool) -> Weight
    ensures { result ≡ weigh_value size kind value length }
{
    if mixed {
        return weigh_mixed(size, kind, value, length);
    }
    weigh_value(size, kind, value, length)
}

// ---- a whole record

// A good record over a source of size bytes.
pub fn is_good(size: u32, r: Record) -> bool
    ensures { result ≡ good size r }
{
    match weigh_value(size, r.kind, r.value, r.length) {
        Weight::Bytes(_) => wire::good_head(size as usize, r.tag, r.key),
        Weight::Bad(_) => false,
    }
}

// Its tag and its key. No key is all ones, and one more is 0: one test says both.
fn has_head(size: u32, tag: u64, key: u64) -> bool
    ensures { result ≡ good_head size tag key }
{
    if LAST_TAG < tag {
        return false;
    }
    if std::num::wrapping_add_u64(key, 1) <= (size as u64) {
        return true;
    }
    false
}

// A record behind one of tag prev, over a source of size bytes; mixed says by which way its value is weighed. Its key is measured without the type:
// no limit lies between two types of one tag.
pub fn weigh_record(size: u32, prev: u64, r: Record, mixed: bool) -> Weight
    ensures { result ≡ weigh size prev r }
{
    if !has_head(size, r.tag, r.key) {
        return Weight::Bad(Refusal::BadRecord);
    }
    match weigh_either(size, r.kind, r.value, r.length, mixed) {
        Weight::Bad(why) => Weight::Bad(why),
        Weight::Bytes(n) => {
            if r.tag < prev {
                return Weight::Bad(Refusal::OutOfOrder);
            }
            Weight::Bytes(number_len(4 * (r.tag - prev)) + n)
        }
    }
}
