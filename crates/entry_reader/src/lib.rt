// A reader that holds a message, its place and its end, with the last tag: `Capped` and `TagReader` of src/encoding/mod.rs of bilrost in
// one struct. Three thin functions over the entries that take these as plain parameters; a step answers the place and the tag from which
// the next reader is made. Above them two with plain parameters, for callers that hold no reader.
#![tactic(auto)]

ghost use Rattle.std.specs.Prelude.{◌≡◌};
ghost use Rattle.entry_reader.specs.Counting.{count_entry};
ghost use Rattle.entry_reader.specs.Held.{Made, Tested, StepOf, Stepped};

use entry_answer::{More, Step};
use wire::Refusal;

#[derive(Clone, Copy)]
pub struct Reader<'a> {
    pub message: &'a [u8],
    pub place: usize,
    pub end: usize,
    pub last: u32,
}

// The number of fields, or why they are not counted.
#[derive(Clone, Copy)]
pub enum Counted {
    Fields(usize),
    Refused(Refusal),
}

// A reader of a message from a place up to an end, behind a field of the last tag. Making never refuses: the test and the step do.
pub fn make<'a>(message: &'a [u8], place: usize, end: usize, last: u32) -> Reader<'a>
    ensures { Made message.entry place end last result }
{
    Reader {
        message,
        place,
        end,
        last,
    }
}

// Whether there is more before the end.
pub fn has_more<'a>(r: Reader<'a>) -> More
    ensures { Tested r.entry result }
{
    entry_field::more_at(r.message, r.place, r.end)
}

// One step: a field, or the end, or a refusal with the reader's place and last tag.
pub fn take_step<'a>(r: Reader<'a>) -> Step
    ensures { Stepped r.entry result }
{
    entry_field::step_at(r.message, r.place, r.end, r.last)
}

// A step through a reader made for it. Its parameters are plain, so that a caller holds no reader.
pub fn step_through(message: &[u8], place: usize, end: usize, last: u32) -> Step
    ensures { StepOf message.now place end last result }
{
    take_step(make(message, place, end, last))
}

// How many fields a message has from a place up to an end, by steps: what its table must have room for. Refused as the message is.
pub fn count_fields(message: &[u8], start: usize, end: usize) -> Counted
    ensures { result ≡ count_entry message.now start end }
{
    let mut place = start;
    let mut last: u32 = 0;
    let mut count: usize = 0;
    loop {
        match step_through(message, place, end, last) {
            Step::Field(f, next) => {
                last = f.tag;
                place = next;
                count += 1;
            }
            Step::End => {
                return Counted::Fields(count);
            }
            Step::Refused(r, _, _, _) => {
                return Counted::Refused(r);
            }
        }
    }
}
