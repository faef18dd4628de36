// Comparing an evolution with what was published.
use crate::vectors::{Beaver, Halt, Rows, Run};
use anyhow::Context;
use machines::{Configuration, Move, Turing};
use orbits::evolve;
use rings::Direction;
use rules::{RuleFault, Table};
use std::alloc::{AllocError, Global};
use std::fmt;

// An evolution that was published, written as its title.
pub(crate) trait Published: fmt::Display {
    // Where the evolution and what was published first differ, if they do.
    fn check(&self, heap: Global) -> anyhow::Result<Option<Difference>>;
}

// Where an evolution and what was published first differ.
#[derive(Drop)]
pub(crate) struct Difference {
    pub(crate) row: usize,
    pub(crate) expected: String,
    pub(crate) found: String,
}

impl fmt::Display for Difference {
    fn fmt<W: fmt::Write>(&self, f: &mut fmt::Formatter<W>) -> fmt::Result {
        let Difference {
            row,
            expected,
            found,
        } = self;
        write!(f, "at row {row}: expected {expected}, found {found}")
    }
}

// A ring, written as its codes with nothing between. (`worked` puts blanks between: one type for both would take them at each use.)
#[derive(Drop)]
struct Digits<'a>(&'a [u32]);

impl<'a> fmt::Display for Digits<'a> {
    fn fmt<W: fmt::Write>(&self, f: &mut fmt::Formatter<W>) -> fmt::Result {
        for code in self.0 {
            write!(f, "{code}")?;
        }
        Ok(())
    }
}

// The cells of a ring that is written with the digits 0 and 1.
fn cells(heap: Global, text: &str) -> Result<Vec<u32>, AllocError> {
    text.bytes()
        .map(|byte| u32::from(byte == b'1'))
        .collect(heap)
}

// The binary number of the cells, the first one counting most.
fn binary(cells: &[u32]) -> u64 {
    cells.iter().fold(0u64, |value, code| {
        value.wrapping_mul(2).wrapping_add(u64::from(*code))
    })
}

impl Published for Rows {
    // The rows grow from a single 1 on a ring so wide that nothing meets behind it.
    fn check(&self, heap: Global) -> anyhow::Result<Option<Difference>> {
        let rule = Table::elementary(self.rule);
        let middle = self.values.len().saturating_add(1);
        let mut ring = vec![in heap; 0; middle]?;
        ring.push(1)?;
        ring.resize(middle.saturating_mul(2).saturating_add(1), 0)?;
        for (row, expected) in self.values.iter().enumerate() {
            let found = ring
                .get(middle.saturating_sub(row)..middle.saturating_add(row).saturating_add(1))
                .map(binary)
                .context("a row is wider than its ring")?;
            if found != *expected {
                return Ok(Some(Difference {
                    row,
                    expected: expected.to_string(heap)?,
                    found: found.to_string(heap)?,
                }));
            }
            ring = evolve(heap, &rule, Direction::Forward, &ring, 1)?;
        }
        Ok(None)
    }
}

impl Published for Run {
    // Only the last ring was published.
    fn check(&self, heap: Global) -> anyhow::Result<Option<Difference>> {
        let rule = Table::elementary(self.rule);
        let first = cells(heap, self.first)?;
        let last = evolve(heap, &rule, Direction::Forward, &first, self.steps)?;
        let found = Digits(&last).to_string(heap)?;
        if found.as_str() == self.last {
            return Ok(None);
        }
        Ok(Some(Difference {
            row: self.steps,
            expected: String::from_str(heap, self.last)?,
            found,
        }))
    }
}

// A tape so long that the busy beaver does not come round, and more steps than it makes.
const BEAVER_CELLS: usize = 16;

const MAX_BEAVER_STEPS: usize = 32;

const BEAVER_SYMBOLS: u32 = 2;

// The state in which the busy beaver halts, after the two in which it works.
const HALTED: u32 = 2;

// The busy beaver of two states: a new machine's transitions change nothing, so it halts in the third.
fn busy_beaver() -> Result<Turing, RuleFault> {
    let mut machine = Turing::new(BEAVER_SYMBOLS, HALTED + 1)?;
    let right = u32::from(Move::Right);
    let left = u32::from(Move::Left);
    machine.enter(0, 1, right, 1)?;
    machine.enter(1, 1, left, 1)?;
    machine.enter(2, 1, left, 0)?;
    machine.enter(3, 1, right, HALTED)?;
    Ok(machine)
}

// How many symbols of a ring of the busy beaver are 1.
fn count_ones(ring: &[u32]) -> usize {
    ring.iter()
        .filter(|code| **code % BEAVER_SYMBOLS == 1)
        .count()
}

// Whether the head on a ring of the busy beaver has halted. (0 is a cell with no head.)
fn has_halted(ring: &[u32]) -> bool {
    ring.iter().any(|code| *code / BEAVER_SYMBOLS == HALTED + 1)
}

// The halt of the busy beaver on an empty circular tape, or how far it was after the most steps.
fn run_beaver(heap: Global) -> anyhow::Result<Halt> {
    let machine = busy_beaver()?;
    let tape = vec![in heap; 0; BEAVER_CELLS]?;
    let mut ring = vec![in heap; 0; BEAVER_CELLS]?;
    let start = Configuration {
        tape: &tape,
        position: BEAVER_CELLS / 2,
        state: 0,
    };
    machine.draw(start, &mut ring)?;
    for steps in 0..MAX_BEAVER_STEPS {
        if has_halted(&ring) {
            let ones = count_ones(&ring);
            return Ok(Halt { steps, ones });
        }
        ring = evolve(heap, &machine, Direction::Forward, &ring, 1)?;
    }
    Ok(Halt {
        steps: MAX_BEAVER_STEPS,
        ones: count_ones(&ring),
    })
}

impl Published for Beaver {
    fn check(&self, heap: Global) -> anyhow::Result<Option<Difference>> {
        let found = run_beaver(heap)?;
        if found == self.halt {
            return Ok(None);
        }
        Ok(Some(Difference {
            row: found.steps,
            expected: self.halt.to_string(heap)?,
            found: found.to_string(heap)?,
        }))
    }
}
