// What the arguments of a program ask for, one after the other, and frames counted by their verdict.
#![tactic(auto)]

ghost use Rattle.std.specs.Prelude.{◌≡◌, Some};
ghost use Rattle.stream_orders.specs.Arguments.{dashed, option_of, plain_of, edition_of, grade_of, argument_of};
ghost use Rattle.stream_orders.specs.Orders.{no_orders, ordered_by, fault_of};
ghost use Rattle.stream_orders.specs.Counting.{counted};
ghost use Rattle.stream_orders.specs.Texts.{wanted_text, fault_text};

use std::fmt;

// The least grade that is asked for.
#[derive(Clone, Copy, Debug, PartialEq, Eq)]
pub enum Least {
    Any,
    Extensions,
    Canonical,
}

// What an argument is: a file's name; the standard input; an option; that all that follow are names; and after the options that want one, whether
// it is the second edition, or a least grade.
#[derive(Clone, Copy, Debug, PartialEq, Eq)]
pub enum Argument {
    File,
    Input,
    Count,
    Status,
    Names,
    Edition,
    Least,
    Chosen(bool),
    Taken(Least),
}

// What an option wants as the next argument.
#[derive(Clone, Copy, Debug, PartialEq, Eq)]
pub enum Wanted {
    Edition,
    Grade,
}

impl fmt::Display for Wanted {
    ghost output = { λ w. Some (wanted_text w) };

    fn fmt<W: fmt::Write>(&self, f: &mut fmt::Formatter<W>) -> fmt::Result {
        f.write_str(match self {
            Wanted::Edition => "edition",
            Wanted::Grade => "grade",
        })
    }
}

// What the arguments so far ask for: to count, to tell the status; whether a file is named, and whether all that follow are names; whether the second
// edition, and which least grade; and what the next one has to be.
#[derive(Clone, Copy, Debug, PartialEq, Eq)]
pub struct Orders {
    pub count: bool,
    pub status: bool,
    pub named: bool,
    pub names: bool,
    pub second: bool,
    pub least: Option<Least>,
    pub wants: Option<Wanted>,
}

// What is wrong with all arguments together: the last one wants an edition after it, or a grade; a least grade without the second edition.
#[derive(Clone, Copy, Debug, PartialEq, Eq)]
pub enum Fault {
    NoEdition,
    NoGrade,
    LeastAlone,
}

impl fmt::Display for Fault {
    ghost output = { λ f. Some (fault_text f) };

    fn fmt<W: fmt::Write>(&self, f: &mut fmt::Formatter<W>) -> fmt::Result {
        f.write_str(match self {
            Fault::NoEdition => "behind --edition there has to be 1 or 2",
            Fault::NoGrade => "behind --least there has to be canonical, extensions or any",
            Fault::LeastAlone => "--least is for --edition 2",
        })
    }
}

// The verdicts that are counted: 0 is an accepted frame, then come the numbers of refusals, then lines that are no frames. Numbers and no enum: the tally has a
// place for each, and a refusal is printed by its number.
pub const VERDICTS: usize = 18;

pub const LONG: usize = 16;

pub const HEX: usize = 17;

// ---- arguments

fn is_dashed(word: &[u8]) -> bool
    ensures { result ≡ dashed word.now }
{
    word.first() == Some(&b'-')
}

// An option by its word.
fn option_of(word: &[u8]) -> Option<Argument>
    ensures { result ≡ option_of word.now }
{
    if word == b"--count".as_slice() {
        Some(Argument::Count)
    } else if word == b"--status".as_slice() {
        Some(Argument::Status)
    } else if word == b"--".as_slice() {
        Some(Argument::Names)
    } else if word == b"--edition".as_slice() {
        Some(Argument::Edition)
    } else if word == b"--least".as_slice() {
        Some(Argument::Least)
    } else {
        None
    }
}

fn edition_of(word: &[u8]) -> Option<Argument>
    ensures { result ≡ edition_of word.now }
{
    if word == b"1".as_slice() {
        Some(Argument::Chosen(false))
    } else if word == b"2".as_slice() {
        Some(Argument::Chosen(true))
    } else {
        None
    }
}

fn grade_of(word: &[u8]) -> Option<Argument>
    ensures { result ≡ grade_of word.now }
{
    if word == b"canonical".as_slice() {
        Some(Argument::Taken(Least::Canonical))
    } else if word == b"extensions".as_slice() {
        Some(Argument::Taken(Least::Extensions))
    } else if word == b"any".as_slice() {
        Some(Argument::Taken(Least::Any))
    } else {
        None
    }
}

// What a word is that no option wants; after `--` all are names, but for `-`.
fn plain_of(word: &[u8], names: bool) -> Option<Argument>
    ensures { result ≡ plain_of word.now names }
{
    if word == b"-".as_slice() {
        Some(Argument::Input)
    } else if names {
        Some(Argument::File)
    } else if is_dashed(word) {
        option_of(word)
    } else {
        Some(Argument::File)
    }
}

// What a word is among the arguments; none where there is no such option, edition or grade.
pub fn argument_of(word: &[u8], names: bool, wants: Option<Wanted>) -> Option<Argument>
    ensures { result ≡ argument_of word.now names wants }
{
    match wants {
        None => plain_of(word, names),
        Some(Wanted::Edition) => edition_of(word),
        Some(Wanted::Grade) => grade_of(word),
    }
}

// ---- orders

impl Orders {
    // Nothing is asked for yet.
    pub fn new() -> Orders
        ensures { result ≡ no_orders }
    {
        Orders {
            count: false,
            status: false,
            named: false,
            names: false,
            second: false,
            least: None,
            wants: None,
        }
    }

    // What the arguments ask for with one more.
    pub fn with(self, a: Argument) -> Orders
        ensures { result ≡ ordered_by self a }
    {
        match a {
            Argument::File | Argument::Input => Orders {
                named: true,
                ..self
            },
            Argument::Count => Orders {
                count: true,
                ..self
            },
            Argument::Status => Orders {
                status: true,
                ..self
            },
            Argument::Names => Orders {
                names: true,
                ..self
            },
            Argument::Edition => Orders {
                wants: Some(Wanted::Edition),
                ..self
            },
            Argument::Least => Orders {
                wants: Some(Wanted::Grade),
                ..self
            },
            Argument::Chosen(second) => Orders {
                second,
                wants: None,
                ..self
            },
            Argument::Taken(least) => Orders {
                least: Some(least),
                wants: None,
                ..self
            },
        }
    }

    // What is wrong with the arguments, once there are no more.
    pub fn check(self) -> Result<(), Fault>
        ensures { result ≡ fault_of self }
    {
        match self.wants {
            Some(Wanted::Edition) => Err(Fault::NoEdition),
            Some(Wanted::Grade) => Err(Fault::NoGrade),
            // Only the second edition has grades.
            None if self.second => Ok(()),
            None => match self.least {
                Some(_) => Err(Fault::LeastAlone),
                None => Ok(()),
            },
        }
    }
}

// ---- counting

// One more frame of a verdict; one that the list has no place for is not counted.
pub fn count_one(tally: &mut [usize], verdict: usize)
    ensures { tally.new ≡ counted tally.old verdict }
{
    if verdict < tally.len() {
        tally[verdict] = text_lines::count_up(tally[verdict]);
    }
}
