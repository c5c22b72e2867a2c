// A whole message: decided and counted, or decided and searched for one tag. Nothing is written. From src/encoding/message.rs (`merge`) and
// opaque.rs of bilrost.
#![tactic(auto)]

ghost use Rattle.std.specs.Prelude.{◌≡◌, length};
ghost use Rattle.wire.specs.Reading.{read_message};
ghost use Rattle.message.specs.Deciding.{decided};
ghost use Rattle.message.specs.Tags.{sought};
ghost use Rattle.message.specs.Walks.{walked};

use wire::{Field, FieldFound, Refusal, Stepped, Value};

// The number of fields, or a refusal and its place.
#[derive(Clone, Copy)]
pub enum Decided {
    Fields(usize),
    Refused(Refusal, usize),
}

// The field that was looked for, and how many there are of its tag.
#[derive(Clone, Copy)]
pub enum Sought {
    Found(Field, usize),
    Absent(usize),
    Refused(Refusal),
}

// Where a walk stopped: the field that it looked for, with the place after it, or, if it went on to the end, with how many were wanted; else
// how many were wanted, which were too few; or a refusal.
#[derive(Clone, Copy)]
pub enum Walked {
    Field(Field, usize),
    End(usize),
    Refused(Refusal),
}

// Pass one: the number of fields from a place up to an end, or why there are none. Nothing is written.
pub fn decide(s: &[u8], start: usize, end: usize) -> Decided
    ensures { result ≡ decided (read_message s.now start end) }
{
    let mut p = start;
    let mut mark = start;
    let mut last: u32 = 0;
    let mut count: usize = 0;
    while p < end {
        match field::decode_field(s, p, end, last) {
            FieldFound::Refused(r) => {
                return Decided::Refused(r, p);
            }
            FieldFound::Got(f, next) => {
                mark = p;
                last = f.tag;
                p = next;
                count += 1;
            }
        }
    }
    if p == end {
        return Decided::Fields(count);
    }
    Decided::Refused(Refusal::Truncated, mark)
}

// The rest of a slice that is a message, from a place on. Wanted are the fields of a tag, or, if not exact, of that tag and all below it. The
// walk stops at the wanted field at a number, or notes it and goes on to the end.
// INLINE: the one walker of the library; the step is folded into it. With an end among the parameters lookups take 1.16 times the instructions, with a
// struct of the last four 1.02 times.
pub fn walk(
    s: &[u8],
    at: usize,
    last: u32,
    want: u32,
    exact: bool,
    number: usize,
    stop: bool,
) -> Walked
    ensures { result ≡ walked s.now at last (record { want = want; exact = exact; number = number; stop = stop }) }
{
    let mut p = at;
    let mut tag = last;
    let mut many: usize = 0;
    let mut found = Field {
        tag: 0,
        value: Value::Varint(0),
    };
    loop {
        match field::next_field(s, p, s.len(), tag) {
            Stepped::Refused(r) => {
                return Walked::Refused(r);
            }
            Stepped::End => {
                break;
            }
            Stepped::Field(f, next) => {
                p = next;
                tag = f.tag;
                if tag != want {
                    if exact {
                        continue;
                    }
                    if want < tag {
                        continue;
                    }
                }
                if many == number {
                    if stop {
                        return Walked::Field(f, next);
                    }
                    found = f;
                }
                many += 1;
            }
        }
    }
    if number < many {
        return Walked::Field(found, many);
    }
    Walked::End(many)
}

// The field of a tag at a number, counted from 0, of a slice that is a message and is read whole.
pub fn find_tag(s: &[u8], tag: u32, number: usize) -> Sought
    ensures { result ≡ sought tag number (read_message s.now 0 (length s.now)) }
{
    match walk(s, 0, 0, tag, true, number, false) {
        Walked::Refused(r) => Sought::Refused(r),
        Walked::End(n) => Sought::Absent(n),
        Walked::Field(f, n) => Sought::Found(f, n),
    }
}
