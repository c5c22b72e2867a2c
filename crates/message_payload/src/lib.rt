// A record's payload: where it starts in its message, and its length. Ours: the Rust hands out the payload itself.
#![tactic(auto)]

ghost use Rattle.std.specs.Prelude.{◌≡◌};
ghost use Rattle.message_payload.specs.Payload.{span_of};

use wire::Record;

// A part of a slice: where it starts, and its length.
#[derive(Clone, Copy)]
pub struct Span {
    pub start: usize,
    pub length: usize,
}

// Where a record's payload stands in a slice of so many bytes. A start and a length that would wrap are inside no slice.
pub fn payload_span(len: usize, r: Record) -> Span
    ensures { result ≡ span_of len r }
{
    let none = Span {
        start: 0,
        length: 0,
    };
    if r.kind != 1 {
        return none;
    }
    if !wire::good_head(len, r.tag, r.key) {
        return none;
    }
    if (len as u64) < r.value {
        return none;
    }
    if (len as u64) - r.value < r.length {
        return none;
    }
    Span {
        start: r.value as usize,
        length: r.length as usize,
    }
}
