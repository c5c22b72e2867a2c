// The entries on keys. Each tests its refusals in their order and hands the rest to a core.
#![tactic(auto)]

ghost use Rattle.std.specs.Prelude.{◌≡◌};
ghost use Rattle.entry_key.specs.Keys.{decode_key, key_at_front, key_at_end, key_len};

use entry_answer::{Gated, KeyLength, KeyRead, Put};
use wire::{Fault, KeyFound, Refusal, WireType};

// The key at a place, under an end and after a last tag. The place after it may be past the end.
pub fn decode_key(s: &[u8], at: usize, end: usize, last: u32) -> KeyRead
    ensures { result ≡ decode_key s.now at end last }
{
    if let Gated::Shut(r) = entry_answer::gate(s.len(), at, end) {
        let nowhere = Fault { place: 0, bytes: 0 };
        return KeyRead::Refused(r, at, last, nowhere);
    }
    match field_key::decode_key(s, at, end, last) {
        KeyFound::Got(k, next) => KeyRead::Got(k, next),
        KeyFound::Refused(r) => KeyRead::Refused(r, at, last, fault::key_fault(r, s.len(), at)),
    }
}

// A key's bytes at the buffer's front: OutOfOrder for a tag below the last one, then NoRoom.
pub fn encode_key(last: u32, tag: u32, wire: WireType, buf: &mut [u8]) -> Put
    ensures { record { answer = result; buf = buf.new } ≡ key_at_front buf.old last tag wire }
{
    if tag < last {
        return Put::Refused(Refusal::OutOfOrder);
    }
    let n = field_key::put_key(buf, 0, last, tag, wire);
    if n == 0 {
        return Put::Refused(Refusal::NoRoom);
    }
    Put::Done(n)
}

// A key's bytes at the buffer's end: OutOfOrder for a tag below the last one, then NoRoom.
pub fn prepend_key(last: u32, tag: u32, wire: WireType, buf: &mut [u8]) -> Put
    ensures { record { answer = result; buf = buf.new } ≡ key_at_end buf.old last tag wire }
{
    if tag < last {
        return Put::Refused(Refusal::OutOfOrder);
    }
    let end = buf.len();
    let start = field_key::prepend_key(buf, end, last, tag, wire);
    if start == end {
        return Put::Refused(Refusal::NoRoom);
    }
    Put::Done(end - start)
}

// How many bytes a key takes, whatever its wire type; OutOfOrder for a tag below the last one.
pub fn key_len(last: u32, tag: u32) -> KeyLength
    ensures { result ≡ key_len last tag }
{
    if tag < last {
        return KeyLength::Refused(Refusal::OutOfOrder);
    }
    KeyLength::Length(field_key::key_len(last, tag))
}
