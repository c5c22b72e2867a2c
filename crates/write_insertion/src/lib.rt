// A record put into a table behind all records of an equal or lower tag. How long a source may be is the caller's to say.
// From opaque.rs (`OpaqueMessage::insert`) of bilrost; the tests and the table are ours.
#![tactic(auto)]

ghost use Rattle.std.specs.Prelude.{◌≡◌, ◌++◌, ◌+◌, ◌≤◌, length};
ghost use Rattle.std.proofs.lemmas.List.Edits.{sets};
ghost use Rattle.wire.specs.Limits.{record_words};
ghost use Rattle.wire.specs.Places.{part};
ghost use Rattle.wire.specs.Table.{stamped, words, room};
ghost use Rattle.write_insertion.specs.Insertion.{spot, aim, Insertion, inserts};

use wire::{Inserted, NewRecord, RECORD_WORDS, Record, Refusal, Weighed};

// The index behind the last of the first records, so many of them, whose tag is equal or lower.
fn find_spot(table: &[u64], count: usize, tag: u64) -> usize
    requires { count ≤ room table.now }
    ensures { result ≡ spot count table.now tag }
{
    let mut i = count;
    while 0 < i {
        if table[RECORD_WORDS * (i - 1)] <= tag {
            return i;
        }
        i -= 1;
    }
    0
}

// The words from one place up to another moved up by a record, from the last so that none is lost; then the record's words before them.
fn put_between(table: &mut [u64], from: usize, to: usize, r: Record)
    requires { (from ≤ to) × (to + record_words ≤ length table.old) }
    ensures { table.new ≡ sets table.old from (words r ++ part table.old from to) }
{
    let mut j = to;
    while from < j {
        j -= 1;
        table[j + RECORD_WORDS] = table[j];
    }
    table[from] = r.tag;
    table[from + 1] = r.kind;
    table[from + 2] = r.value;
    table[from + 3] = r.length;
    table[from + 4] = r.key;
}

// The new record, with no key, in its place, where no test refuses. The records are tested as the writers test them.
pub fn insert_record(
    source: &[u8],
    table: &mut [u64],
    count: usize,
    added: NewRecord,
    most: u32,
) -> Inserted
    ensures { record { answer = result; table = table.new }
        ≡ inserts table.old count (stamped added) (aim most source.now table.old count (stamped added)) }
{
    let r = Record {
        tag: added.tag,
        kind: added.kind,
        value: added.value,
        length: added.length,
        key: wire::NO_KEY,
    };
    match write_message::weigh(source, table, count, most) {
        Weighed::First(why, i) => Inserted::Refused(why, i),
        Weighed::Left(_) => {
            if write_record::is_good(source.len() as u32, r) {
                if count == table.len() / RECORD_WORDS {
                    return Inserted::Refused(Refusal::NoRoom, 0);
                }
                let p = find_spot(table, count, r.tag);
                put_between(table, RECORD_WORDS * p, RECORD_WORDS * count, r);
                return Inserted::Count(count + 1);
            }
            Inserted::Refused(Refusal::BadRecord, count)
        }
    }
}
