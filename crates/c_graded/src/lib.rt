// A graded sounding for C: the grade that a number names, and the words of the answer.
#![tactic(auto)]

ghost use Rattle.std.specs.Prelude.{◌≡◌};
ghost use Rattle.sounding_graded.specs.Told.{graded_told};
ghost use Rattle.sounding_grade.specs.Grades.{grade_number};
ghost use Rattle.c_graded.specs.Words.{grade_of, as_graded};

use sounding_grade::Grade;
use sounding_graded::Graded;

// What a number that a caller gave as the least grade is: a grade, or none.
#[derive(Clone, Copy)]
pub enum Least {
    Is(Grade),
    Unknown,
}

#[repr(C)]
#[derive(Clone, Copy)]
pub struct GradedWords {
    pub number: u64,
    pub station: u64,
    pub launch: u64,
    pub levels: u64,
    pub grade: u64,
}

// A number's grade, if it is one's.
pub fn grade_of(number: u64) -> Least
    ensures { result ≡ grade_of number }
{
    match number {
        0 => Least::Is(Grade::NotCanonical),
        1 => Least::Is(Grade::HasExtensions),
        2 => Least::Is(Grade::Canonical),
        _ => Least::Unknown,
    }
}

// Rule B1: the number of a grade.
pub fn grade_number(g: Grade) -> u64
    ensures { result ≡ grade_number g }
{
    match g {
        Grade::NotCanonical => 0,
        Grade::HasExtensions => 1,
        Grade::Canonical => 2,
    }
}

// A station, a launch, the number of levels and the grade.
pub fn graded_words(a: Graded) -> GradedWords
    ensures { as_graded result ≡ graded_told a }
{
    match a {
        Graded::Read(h, g) => GradedWords {
            number: 0,
            station: h.station,
            launch: h.launch,
            levels: h.levels as u64,
            grade: grade_number(g),
        },
        Graded::Refused(r) => GradedWords {
            number: wire::number_of(r),
            station: 0,
            launch: 0,
            levels: 0,
            grade: 0,
        },
    }
}
