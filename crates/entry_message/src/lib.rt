// The entries on whole messages. Each tests its refusals in their order and hands the rest to a core.
#![tactic(auto)]

ghost use Rattle.std.specs.Prelude.{◌≡◌};
ghost use Rattle.entry_message.specs.Messages.{part_of, read_entry, payload_part, read_payload, pick_entry, several_entry, early_entry};

use entry_answer::{Gated, Picked, Several};
use message::Sought;
use wire::{Early, Fault, Read, Record, Refusal};

// A message of a slice, from a place up to an end, read into a table. A refusal leaves the table as it was.
pub fn read_message(s: &[u8], start: usize, end: usize, table: &mut [u64]) -> Read
    ensures { record { answer = result; table = table.new } ≡ read_entry s.now start end table.old }
{
    if let Gated::Shut(r) = entry_answer::gate(s.len(), start, end) {
        let nowhere = Fault { place: 0, bytes: 0 };
        return Read::Refused(r, 0, 0, nowhere);
    }
    message_table::read_into(s, start, end, table)
}

// A record's payload: the part of the message, not a copy. A record that is not a good LengthDelimited one of this message has the empty
// part at its front.
pub fn payload_of<'a>(message: &'a [u8], r: Record) -> &'a [u8]
    ensures { part_of result ≡ payload_part message.entry r }
{
    let p = message_payload::payload_span(message.len(), r);
    let start = p.start;
    let end = start + p.length;
    &message[start..end]
}

// A record's payload read as a message in itself: places count from its first byte. A record that has no payload is the empty message, which
// is accepted.
pub fn read_payload(message: &[u8], r: Record, table: &mut [u64]) -> Read
    ensures { record { answer = result; table = table.new } ≡ read_payload message.now r table.old }
{
    let part = payload_of(message, r);
    read_message(part, 0, part.len(), table)
}

// How many fields of a tag a message has, which is read whole, and the one at a number, counted from 0.
pub fn pick_at(s: &[u8], tag: u32, number: usize) -> Several
    ensures { result ≡ several_entry s.now tag number }
{
    if let Gated::Shut(r) = entry_answer::gate(s.len(), 0, s.len()) {
        return Several::Refused(r);
    }
    match message::find_tag(s, tag, number) {
        Sought::Found(f, n) => Several::Found(n, f),
        Sought::Absent(n) => Several::Absent(n),
        Sought::Refused(r) => Several::Refused(r),
    }
}

// The only field of a tag, in a message that is read whole; Repeated where there are more.
pub fn pick(s: &[u8], tag: u32) -> Picked
    ensures { result ≡ pick_entry s.now tag }
{
    match pick_at(s, tag, 0) {
        Several::Found(n, f) => {
            if n == 1 {
                return Picked::Found(f);
            }
            Picked::Refused(Refusal::Repeated)
        }
        Several::Absent(_) => Picked::Absent,
        Several::Refused(r) => Picked::Refused(r),
    }
}

// The only field of a tag before the first key above it, and the number of keys read: that key's value and what follows it are not read.
pub fn pick_early(s: &[u8], tag: u32) -> Early
    ensures { result ≡ early_entry s.now tag }
{
    if let Gated::Shut(r) = entry_answer::gate(s.len(), 0, s.len()) {
        return Early::Refused(r);
    }
    message_early::find_early(s, tag)
}
