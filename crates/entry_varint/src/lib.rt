// The entries on varints. Each tests its refusals in their order and hands the rest to a core.
#![tactic(auto)]

ghost use Rattle.std.specs.Prelude.{◌≡◌};
ghost use Rattle.wire.specs.Varint.{encode};
ghost use Rattle.entry_answer.specs.Stores.{at_front, at_end};
ghost use Rattle.entry_varint.specs.Varints.{decode_varint, decode_varint_capped};

use entry_answer::{Gated, Put, VarintRead};
use wire::{Refusal, VarintFound};

// A number's bytes at the buffer's front; NoRoom where they do not fit.
pub fn encode_varint(v: u64, buf: &mut [u8]) -> Put
    ensures { record { answer = result; buf = buf.new } ≡ at_front buf.old (encode v) }
{
    let n = varint_write::put_varint(buf, 0, v);
    if n == 0 {
        return Put::Refused(Refusal::NoRoom);
    }
    Put::Done(n)
}

// A number's bytes at the buffer's end; NoRoom where they do not fit.
pub fn prepend_varint(v: u64, buf: &mut [u8]) -> Put
    ensures { record { answer = result; buf = buf.new } ≡ at_end buf.old (encode v) }
{
    let end = buf.len();
    let start = varint_write::prepend_varint(buf, end, v);
    if start == end {
        return Put::Refused(Refusal::NoRoom);
    }
    Put::Done(end - start)
}

// The varint at a place, read from the slice as far as it goes.
pub fn decode_varint(s: &[u8], at: usize) -> VarintRead
    ensures { result ≡ decode_varint s.now at }
{
    if let Gated::Shut(r) = entry_answer::gate(s.len(), at, s.len()) {
        return VarintRead::Refused(r, at, 0);
    }
    match varint_read::decode_varint(s, at) {
        VarintFound::Got(v, next) => VarintRead::Got(v, next),
        VarintFound::Refused(r) => VarintRead::Refused(r, at, fault::looked(s.len(), at)),
    }
}

// The varint of a key or a value under an end: read beyond the end too, so that the place after it may be past the end.
pub fn decode_varint_capped(s: &[u8], at: usize, end: usize) -> VarintRead
    ensures { result ≡ decode_varint_capped s.now at end }
{
    if let Gated::Shut(r) = entry_answer::gate(s.len(), at, end) {
        return VarintRead::Refused(r, at, 0);
    }
    match varint_read::decode_varint_capped(s, at, end) {
        VarintFound::Got(v, next) => VarintRead::Got(v, next),
        VarintFound::Refused(r) => VarintRead::Refused(r, at, fault::looked(s.len(), at)),
    }
}
