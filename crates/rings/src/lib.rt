// Rings of cells: what every layer above shares. The definitions are in specs/, the lemmas in proofs/.
#![tactic(auto)]

ghost use Rattle.std.specs.Prelude.{◌≡◌};
ghost use Rattle.rings.specs.Limits.{ends_fit};
ghost use Rattle.rings.specs.Local.{span};
ghost use Rattle.rings.specs.Numbers.{power_within};
ghost use Rattle.rings.specs.Ring.{first_stray, IsFirstStray, cell_at};

use std::error::Error;
use std::fmt;

// The most cells of a ring.
pub const MAX_CELLS: usize = 2048;

// The most states of an automaton.
pub const MAX_STATES: u32 = 16_777_216;

// The least and the greatest end of an interval of cells, and the most cells that one has.
pub const MIN_END: i32 = -128;

pub const MAX_END: i32 = 128;

pub const MAX_WIDTH: usize = 64;

// Which way an automaton steps.
#[derive(Clone, Copy, PartialEq, Eq, Debug)]
pub enum Direction {
    Forward,
    Backward,
}

// The index of the first stray cell, one whose code is not below the number of states. Users ask for this form, a loop that is left
// with an index.
pub fn first_stray(cells: &[u32], states: u32) -> Option<usize>
    ensures answer { result ≡ first_stray states cells.now }
    ensures law { IsFirstStray states cells.now result }
{
    for (i, code) in cells.iter().enumerate() {
        if *code >= states {
            return Some(i);
        }
    }
    None
}

// The index of the cell that lies `offset` cells after the first one of a ring, round and round; none where there is no cell.
pub fn cell_at(offset: i64, cells: usize) -> Option<usize>
    ensures { result ≡ cell_at offset cells }
{
    if cells == 0 {
        return None;
    }
    // a division of 32 bits takes less time than one of 64, and intervals and rings need no more
    Some(match (i32::try_from(offset), i32::try_from(cells)) {
        (Ok(offset), Ok(cells)) => offset.rem_euclid(cells) as usize,
        _ => i128::from(offset).rem_euclid(cells as i128) as usize,
    })
}

// How many cells an interval has, its ends given in either order. (The ends are two numbers, as in a shape; a rule tells the ends of a
// direction, if it has them, as a pair.)
pub fn interval_width(lo: i32, hi: i32) -> usize
    ensures { result ≡ span lo hi }
{
    hi.abs_diff(lo) as usize + 1
}

// Whether the low end is not below the least, the high end not above the greatest, and the width within its limit.
pub fn ends_fit(lo: i32, hi: i32) -> bool
    ensures { result ≡ ends_fit lo hi }
{
    lo >= MIN_END && hi <= MAX_END && interval_width(lo, hi) <= MAX_WIDTH
}

// `base` to the power `exponent`, if that is at most `limit`.
pub fn power_within(base: u32, exponent: u32, limit: u32) -> Option<u32>
    ensures { result ≡ power_within base exponent limit }
{
    base.checked_pow(exponent).filter(|power| *power <= limit)
}

// Why a call refused what it was given, and what that was.
#[derive(Drop)]
pub struct Refused<T, F> {
    pub fault: F,
    pub given: T,
}

// Told as its fault, for what was given need not have a text.
impl<T, F: fmt::Debug> fmt::Debug for Refused<T, F> {
    fn fmt<W: fmt::Write>(&self, f: &mut fmt::Formatter<W>) -> fmt::Result {
        self.fault.fmt(f)
    }
}

impl<T, F: fmt::Display> fmt::Display for Refused<T, F> {
    fn fmt<W: fmt::Write>(&self, f: &mut fmt::Formatter<W>) -> fmt::Result {
        self.fault.fmt(f)
    }
}

impl<T: Drop, F: Error> Error for Refused<T, F> {}
