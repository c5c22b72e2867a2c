// A message read whole into a table and written back from it, at the front of one buffer and at the end of another: that the bytes come back is what
// the contract says.
#![tactic(auto)]

ghost use Rattle.std.specs.Prelude.{◌≡◌, length};
ghost use Rattle.entry_reader.specs.Counting.{count_entry};
ghost use Rattle.entry_copy.specs.Copy.{Copying, short_of, copied};

use entry_reader::Counted;
use wire::{Read, Refusal};

// The number of fields, or why nothing was copied.
#[derive(Clone, Copy)]
pub enum Copied {
    Fields(usize),
    Refused(Refusal),
}

// Why nothing is copied where a buffer is too short: the message's own refusal, or NoRoom.
fn not_copied(s: &[u8]) -> Copied
    ensures { result ≡ Copied.Refused (short_of (count_entry s.now 0 (length s.now))) }
{
    match entry_reader::count_fields(s, 0, s.len()) {
        Counted::Refused(r) => Copied::Refused(r),
        Counted::Fields(_) => Copied::Refused(Refusal::NoRoom),
    }
}

// The reader's refusals come first, then NoRoom for a buffer that is shorter than the message. A refusal leaves all three as they were.
pub fn copy_message(s: &[u8], table: &mut [u64], front: &mut [u8], back: &mut [u8]) -> Copied
    ensures { record { answer = result; table = table.new; front = front.new; back = back.new }
        ≡ copied s.now table.old front.old back.old }
{
    if front.len() < s.len() {
        return not_copied(s);
    }
    if back.len() < s.len() {
        return not_copied(s);
    }
    match entry_message::read_message(s, 0, s.len(), table) {
        Read::Refused(r, _, _, _) => Copied::Refused(r),
        Read::Accepted(_, n) => {
            entry_write::encode_message(s, table, n, front);
            entry_write::prepend_message(s, table, n, back);
            Copied::Fields(n)
        }
    }
}
