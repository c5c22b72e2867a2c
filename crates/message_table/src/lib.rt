// A whole message read into a table: decided and counted first, then written. From src/encoding/message.rs (`merge`) and opaque.rs of bilrost.
#![tactic(auto)]

ghost use Rattle.std.specs.Prelude.{◌≡◌, ◌+◌, ◌≤◌, ◌<◌, ◌^◌, length, take, drop};
ghost use Rattle.std.proofs.lemmas.List.Edits.{sets};
ghost use Rattle.wire.specs.Fixed.{number};
ghost use Rattle.wire.specs.Limits.{record_words};
ghost use Rattle.wire.specs.Marks.{marks};
ghost use Rattle.wire.specs.Reading.{varint_at};
ghost use Rattle.wire.specs.Table.{words, filled};
ghost use Rattle.wire.specs.declared.Read.TheVariants.{Refused};
ghost use Rattle.wire.specs.declared.VarintFound.TheVariants.{Got};
ghost use Rattle.fault.specs.Short.{fault_at};
ghost use Rattle.message_table.specs.Into.{read_into};
ghost use Rattle.message_table.specs.Second.{Fits, Varinted, Valued, Worded};

use message::Decided;
use wire::{Fault, Read, Record, Refusal};

#[derive(Clone, Copy)]
struct Known {
    value: u64,
    next: usize,
}

#[derive(Clone, Copy)]
struct Words {
    value: u64,
    length: u64,
    next: usize,
}

// A varint of any length that is known to be good: no byte is missing, and the ninth is not too large.
fn known_long(s: &[u8], at: usize) -> Known
    requires { Varinted s.now at }
    ensures { varint_at s.now at ≡ Got result.value result.next }
{
    let mut value: u64 = 0;
    let mut scale: u64 = 1;
    let mut left: usize = 8;
    let mut p = at;
    while 0 < left {
        let b = s[p] as u64;
        value += b * scale;
        p += 1;
        if b < 128 {
            return Known {
                value: value,
                next: p,
            };
        }
        scale *= 128;
        left -= 1;
    }
    let b = s[p] as u64;
    Known {
        value: value + b * 0x100_0000_0000_0000,
        next: p + 1,
    }
}

// Most are one byte or two.
fn known_varint(s: &[u8], at: usize) -> Known
    requires { Varinted s.now at }
    ensures { varint_at s.now at ≡ Got result.value result.next }
{
    let b = s[at] as u64;
    if b < 128 {
        return Known {
            value: b,
            next: at + 1,
        };
    }
    let c = s[at + 1] as u64;
    if c < 128 {
        return Known {
            value: b + 128 * c,
            next: at + 2,
        };
    }
    known_long(s, at)
}

fn known_four(s: &[u8], at: usize) -> u64
    requires { at + 4 ≤ length s.now }
    ensures { (result ≡ number (take 4 (drop at s.now))) × (result < 2 ^ 32) }
{
    field_value::four_bytes(s[at], s[at + 1], s[at + 2], s[at + 3])
}

// A value's two words of a record, and the place after it.
fn known_value(s: &[u8], at: usize, kind: u64) -> Words
    requires { Valued s.now at kind }
    ensures { Worded s.now at kind result.value result.length result.next }
{
    if kind == 0 {
        let v = known_varint(s, at);
        return Words {
            value: v.value,
            length: 0,
            next: v.next,
        };
    }
    if kind == 1 {
        let v = known_varint(s, at);
        let length = v.value;
        let next = v.next;
        return Words {
            value: next as u64,
            length: length,
            next: next + (length as usize),
        };
    }
    if kind == 2 {
        return Words {
            value: known_four(s, at),
            length: 4,
            next: at + 4,
        };
    }
    let low = known_four(s, at);
    let high = known_four(s, at + 4);
    Words {
        value: low + high * 0x1_0000_0000,
        length: 8,
        next: at + 8,
    }
}

// A record's words from word i on.
fn store(table: &mut [u64], i: usize, r: Record)
    requires { i + record_words ≤ length table.old }
    ensures { table.new ≡ sets table.old i (words r) }
{
    table[i] = r.tag;
    table[i + 1] = r.kind;
    table[i + 2] = r.value;
    table[i + 3] = r.length;
    table[i + 4] = r.key;
}

// Pass two: the records of a message that is known to be good and to have room.
fn fill(s: &[u8], start: usize, end: usize, table: &mut [u64])
    requires { Fits s.now start end table.old }
    ensures { table.new ≡ filled table.old (marks s.now start end) }
{
    let mut p = start;
    let mut tag: u64 = 0;
    let mut i: usize = 0;
    while p < end {
        let k = known_varint(s, p);
        let key = k.value;
        let at = k.next;
        tag += key / 4;
        let v = known_value(s, at, key % 4);
        store(
            table,
            i,
            Record {
                tag: tag,
                kind: key % 4,
                value: v.value,
                length: v.length,
                key: p as u64,
            },
        );
        p = v.next;
        i += wire::RECORD_WORDS;
    }
}

// The answer to a message that is refused at a place.
// INLINE: a function of its own, folded into its one caller: written out there, the compiler keeps the end where calls of pass one lose it (a level 3 % more).
fn refused(s: &[u8], at: usize, end: usize, why: Refusal) -> Read
    ensures { result ≡ Refused why at 0 (fault_at s.now end why at) }
{
    Read::Refused(why, at, 0, fault::fault_at(s, at, end, why))
}

// A message read into a table: nothing is written before the whole message is known to be good and to have room.
// INLINE: fill is called in two places, and so is not folded in here, where its places would take registers from pass one (a message cut short: 2 % more).
pub fn read_into(s: &[u8], start: usize, end: usize, table: &mut [u64]) -> Read
    ensures { record { answer = result; table = table.new } ≡ read_into s.now start end table.old }
{
    match message::decide(s, start, end) {
        Decided::Refused(r, p) => refused(s, p, end, r),
        Decided::Fields(n) => {
            if table.len() / wire::RECORD_WORDS < n {
                let nowhere = Fault { place: 0, bytes: 0 };
                return Read::Refused(Refusal::NoRoom, 0, n, nowhere);
            }
            if start == 0 {
                fill(s, 0, end, table);
                return Read::Accepted(end, n);
            }
            fill(s, start, end, table);
            Read::Accepted(end, n)
        }
    }
}
