// The entries that write messages and insert into tables. The limit is theirs; the tests are a core's.
#![tactic(auto)]

ghost use Rattle.std.specs.Prelude.{◌≡◌};
ghost use Rattle.entry_write.specs.Writers.{encode_message, prepend_message, insert_record};

use wire::{Inserted, NewRecord, Written};

// The longest source and the longest message, as the cores take it.
const LONGEST: u32 = wire::MESSAGE_LIMIT as u32;

// The message of a table's first records, over the source that holds their payloads, at the buffer's front. A refusal leaves the buffer as it was; NoRoom
// carries the length that the message has.
pub fn encode_message(source: &[u8], table: &[u64], count: usize, buf: &mut [u8]) -> Written
    ensures { record { answer = result; buf = buf.new } ≡ encode_message source.now table.now count buf.old }
{
    write_message::write_front(source, table, count, LONGEST, buf)
}

// The same at the buffer's end.
pub fn prepend_message(source: &[u8], table: &[u64], count: usize, buf: &mut [u8]) -> Written
    ensures { record { answer = result; buf = buf.new } ≡ prepend_message source.now table.now count buf.old }
{
    write_message::write_back(source, table, count, LONGEST, buf)
}

// A new record, with no key, behind all of a table's first records whose tag is equal or lower. A refusal leaves the table as it was.
pub fn insert(source: &[u8], table: &mut [u64], count: usize, new: NewRecord) -> Inserted
    ensures { record { answer = result; table = table.new } ≡ insert_record source.now table.old count new }
{
    write_insertion::insert_record(source, table, count, new, LONGEST)
}
