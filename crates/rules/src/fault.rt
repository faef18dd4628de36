// Why a rule refuses: the cases, their numbers and their places.
ghost use Rattle.std.specs.Prelude.{◌≡◌};
ghost use Rattle.rules.specs.Faults.{fault_number, fault_place};

use std::error::Error;
use std::fmt;

#[derive(Clone, Copy, PartialEq, Eq, Debug)]
pub enum RuleFault {
    // The ring has no cell.
    EmptyRing,
    // The ring has too many cells.
    LongRing,
    // The code at this index is no state.
    StrayCode(usize),
    // The buffer to write to is too short.
    ShortBuffer,
    // The rule has no inverse.
    NoInverse,
    // A window or a list of entries has a wrong length.
    WrongLength,
    // A size is out of its range.
    OutOfRange,
    // The entry at this index is out of its range.
    BadEntry(usize),
    // The rule is too large to be lifted.
    Unliftable,
}

impl RuleFault {
    // The number of the refusal. A method, as `place` is: a refusal has two numbers, and a conversion could give but one.
    pub fn number(self) -> u16
        ensures answer { result ≡ fault_number self }
    {
        match self {
            RuleFault::EmptyRing => 1,
            RuleFault::LongRing => 2,
            RuleFault::StrayCode(_) => 4,
            RuleFault::ShortBuffer => 5,
            RuleFault::NoInverse => 7,
            RuleFault::WrongLength => 8,
            RuleFault::OutOfRange => 9,
            RuleFault::BadEntry(_) => 10,
            RuleFault::Unliftable => 11,
        }
    }

    // The index that the refusal points at. Users ask that a place that is not named is 0.
    pub fn place(self) -> usize
        ensures answer { result ≡ fault_place self }
    {
        match self {
            RuleFault::StrayCode(index) | RuleFault::BadEntry(index) => index,
            _ => 0,
        }
    }
}

impl fmt::Display for RuleFault {
    fn fmt<W: fmt::Write>(&self, f: &mut fmt::Formatter<W>) -> fmt::Result {
        match self {
            RuleFault::EmptyRing => f.write_str("the ring has no cell"),
            RuleFault::LongRing => f.write_str("the ring has too many cells"),
            RuleFault::StrayCode(i) => write!(f, "the code at index {i} is no state"),
            RuleFault::ShortBuffer => f.write_str("the buffer is too short"),
            RuleFault::NoInverse => f.write_str("the rule has no inverse"),
            RuleFault::WrongLength => f.write_str("the window or list has a wrong length"),
            RuleFault::OutOfRange => f.write_str("a size is out of its range"),
            RuleFault::BadEntry(i) => write!(f, "the entry at index {i} is out of its range"),
            RuleFault::Unliftable => f.write_str("the rule is too large to be lifted"),
        }
    }
}

impl Error for RuleFault {}
