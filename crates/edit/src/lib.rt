// Edits of a working copy: a table whose payloads lie in one lent room. A record taken out, a payload's bytes replaced, a payload put in.
#![tactic(auto)]

ghost use Rattle.std.specs.Prelude.{◌≡◌, [], ◌∷◌, ◌+◌, ◌*◌, ◌<◌, length};
ghost use Rattle.std.proofs.lemmas.List.Edits.{sets};
ghost use Rattle.wire.specs.Limits.{record_words};
ghost use Rattle.wire.specs.Table.{room};
ghost use Rattle.write_insertion.specs.Insertion.{Insertion};
ghost use Rattle.edit.specs.Edits.{Edit, Laid, vet_told, vetted, replaceable, insertable, laid, remove_record, replace_payload, insert_payload};

use edit_live::Payloads;
use wire::{Inserted, NewRecord, RECORD_WORDS, Refusal, Weighed};

// The longest room, as the cores take it.
const LONGEST: u32 = wire::MESSAGE_LIMIT as u32;

// The payloads of the first records over a room, but for that of the record at `skip`.
fn in_room<'a>(room: &[u8], table: &'a [u64], count: usize, skip: usize) -> Payloads<'a>
    ensures { result ≡ record { table = table.entry; count = count; skip = skip; size = length room.now } }
{
    Payloads {
        table,
        count,
        skip,
        size: room.len(),
    }
}

// The tests of every edit, in their order: those of the writers, overlaps, key words. The count where none refuses.
fn vet(room: &[u8], table: &[u64], count: usize) -> Inserted
    ensures { result ≡ vet_told count (vetted room.now table.now count) }
{
    match write_message::weigh(room, table, count, LONGEST) {
        Weighed::First(why, i) => Inserted::Refused(why, i),
        Weighed::Left(_) => {
            if let Some(over) = in_room(room, table, count, count).first_overlap() {
                return Inserted::Refused(Refusal::BadRecord, over);
            }
            if let Some(keyed) = edit_live::first_keyed(table, count) {
                return Inserted::Refused(Refusal::BadRecord, keyed);
            }
            Inserted::Count(count)
        }
    }
}

// New bytes in the room, after the last payload or, where they do not fit there, after all of them packed. Answers where they start.
fn lay(room: &mut [u8], table: &mut [u64], count: usize, skip: usize, bytes: &[u8]) -> usize
    ensures { record { start = result; room = room.new; table = table.new }
        ≡ laid count skip room.old table.old bytes.now }
{
    let at = in_room(room, table, count, skip).last_end();
    if bytes.len() <= room.len() - at {
        place::put_part(room, at, bytes, 0, bytes.len());
        return at;
    }
    let to = edit_pack::pack(room, table, count, skip);
    place::put_part(room, to, bytes, 0, bytes.len());
    to
}

// A record of the first ones taken out; those after it move down one. The room is not written.
pub fn remove_record(room: &[u8], table: &mut [u64], count: usize, index: usize) -> Inserted
    ensures { record { answer = result; table = table.new } ≡ remove_record room.now table.old count index }
{
    match vet(room, table, count) {
        Inserted::Refused(why, i) => Inserted::Refused(why, i),
        Inserted::Count(_) => {
            if index < count {
                let at = RECORD_WORDS * index;
                table.copy_within(at + RECORD_WORDS..RECORD_WORDS * count, at);
                return Inserted::Count(count - 1);
            }
            Inserted::Refused(Refusal::BadRecord, index)
        }
    }
}

// The tests of a replacement by n bytes.
fn vet_replaced(room: &[u8], table: &[u64], count: usize, index: usize, n: usize) -> Inserted
    ensures { result ≡ vet_told count (replaceable room.now table.now count index n) }
{
    match vet(room, table, count) {
        Inserted::Refused(why, i) => Inserted::Refused(why, i),
        Inserted::Count(_) => {
            if index < count {
                if write_record::record_at(table, index).kind == 1 {
                    if n <= in_room(room, table, count, index).spare() {
                        return Inserted::Count(count);
                    }
                    return Inserted::Refused(Refusal::NoRoom, 0);
                }
                return Inserted::Refused(Refusal::BadRecord, index);
            }
            Inserted::Refused(Refusal::BadRecord, index)
        }
    }
}

// A payload's start and its length.
fn set_payload(table: &mut [u64], i: usize, start: usize, n: usize)
    requires { i < room table.old }
    ensures { table.new ≡ sets table.old (record_words * i + 2) (start ∷ n ∷ []) }
{
    table[RECORD_WORDS * i + 2] = start as u64;
    table[RECORD_WORDS * i + 3] = n as u64;
}

// Other bytes for a payload of the first records.
pub fn replace_payload(
    room: &mut [u8],
    table: &mut [u64],
    count: usize,
    index: usize,
    bytes: &[u8],
) -> Inserted
    ensures { record { answer = result; room = room.new; table = table.new }
        ≡ replace_payload room.old table.old count index bytes.now }
{
    match vet_replaced(room, table, count, index, bytes.len()) {
        Inserted::Refused(why, i) => Inserted::Refused(why, i),
        Inserted::Count(_) => {
            let start = lay(room, table, count, index, bytes);
            set_payload(table, index, start, bytes.len());
            Inserted::Count(count)
        }
    }
}

// The tests of an insertion of n bytes.
fn vet_inserted(room: &[u8], table: &[u64], count: usize, n: usize) -> Inserted
    ensures { result ≡ vet_told count (insertable room.now table.now count n) }
{
    match vet(room, table, count) {
        Inserted::Refused(why, i) => Inserted::Refused(why, i),
        Inserted::Count(_) => {
            if n <= in_room(room, table, count, count).spare() {
                if count < table.len() / RECORD_WORDS {
                    return Inserted::Count(count);
                }
                return Inserted::Refused(Refusal::NoRoom, 0);
            }
            Inserted::Refused(Refusal::NoRoom, 0)
        }
    }
}

// A payload put in after all of the first records whose tag is equal or lower.
pub fn insert_payload(
    room: &mut [u8],
    table: &mut [u64],
    count: usize,
    tag: u32,
    bytes: &[u8],
) -> Inserted
    ensures { record { answer = result; room = room.new; table = table.new }
        ≡ insert_payload room.old table.old count tag bytes.now }
{
    match vet_inserted(room, table, count, bytes.len()) {
        Inserted::Refused(why, i) => Inserted::Refused(why, i),
        Inserted::Count(_) => {
            let start = lay(room, table, count, count, bytes);
            let new = NewRecord {
                tag: tag as u64,
                kind: 1,
                value: start as u64,
                length: bytes.len() as u64,
            };
            write_insertion::insert_record(room, table, count, new, LONGEST)
        }
    }
}
