// Why an input is refused, and the one page of code that gives each refusal its number and its place; specs/Refusals says the same.
ghost use Rattle.std.specs.Prelude.{◌≡◌};
ghost use Rattle.units.specs.Refusals.{number_of, place_of, refused_with, success, status_of};

use std::error::Error;
use std::fmt;

// A refusal: which row of the table of refusals is met, and what the row speaks of.
#[derive(Clone, Copy, Debug, PartialEq, Eq)]
pub enum Refusal {
    // Row 1.
    NoMark,
    // Row 2, for want of a digit at this byte.
    NoDigit(usize),
    // Row 3, for a block whose payload starts at this byte.
    WrongEnd(usize),
    // Row 4.
    Short,
    // Row 5, for a table and for a line.
    TooLarge,
    NoLine,
    // Row 6, for a table and for a payload to be framed.
    WrongLength,
    TooLong,
    // Row 7.
    DirtyFill,
    // Rows 8 and 9, for this entry.
    NotInTable(usize),
    NotAbove(usize),
    // Row 10.
    NoRoom,
    // Row 11.
    NoWork,
}

impl Refusal {
    // The number of its row.
    pub fn number(self) -> u32
        ensures { result ≡ number_of self }
    {
        match self {
            Refusal::NoMark => 1,
            Refusal::NoDigit(_) => 2,
            Refusal::WrongEnd(_) => 3,
            Refusal::Short => 4,
            Refusal::TooLarge => 5,
            Refusal::NoLine => 5,
            Refusal::WrongLength => 6,
            Refusal::TooLong => 6,
            Refusal::DirtyFill => 7,
            Refusal::NotInTable(_) => 8,
            Refusal::NotAbove(_) => 9,
            Refusal::NoRoom => 10,
            Refusal::NoWork => 11,
        }
    }

    // Where: the entry's index for rows 8 and 9, and 0 for all others.
    pub fn place(self) -> usize
        ensures { result ≡ place_of self }
    {
        match self {
            Refusal::NotInTable(i) => i,
            Refusal::NotAbove(i) => i,
            _ => 0,
        }
    }
}

impl fmt::Display for Refusal {
    fn fmt<W: fmt::Write>(&self, f: &mut fmt::Formatter<W>) -> fmt::Result {
        write!(f, "refused {} at {}", self.number(), self.place())
    }
}

impl Error for Refusal {}

// How an answer is told in C: a refusal's number and place, or 0 and 0 for success.
#[repr(C)]
#[derive(Clone, Copy, Debug, PartialEq, Eq)]
pub struct Status {
    pub number: u32,
    pub place: usize,
}

impl From<Refusal> for Status {
    ghost from_gives = { λ refusal status. status ≡ refused_with refusal };

    fn from(refusal: Refusal) -> Status {
        Status {
            number: refusal.number(),
            place: refusal.place(),
        }
    }
}

impl Status {
    // Nothing is refused.
    pub fn success() -> Self
        ensures { result ≡ success }
    {
        Status {
            number: 0,
            place: 0,
        }
    }

    // What is told of a step's answer.
    pub fn of<T>(answer: &Result<T, Refusal>) -> Self
        ensures { result ≡ status_of answer.now }
    {
        match answer {
            Ok(_) => Status::success(),
            Err(refusal) => Status::from(*refusal),
        }
    }
}
