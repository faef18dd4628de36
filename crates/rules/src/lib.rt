// Rules: one interface for every kind of cellular automaton.
#![tactic(auto)]

ghost use Rattle.std.specs.Prelude.{◌≡◌, ℕ};
ghost use Rattle.rings.specs.Automaton.{Automaton, Lawful, toward};
ghost use Rattle.rules.specs.Answers.{shape_of, ends, answer, next_answer, previous_answer};

use rings::Direction;

mod fault;
mod map;
mod table;
mod window;

pub use fault::RuleFault;
pub use map::map_ring;
pub use table::Table;
pub use window::{check_codes, check_length, check_window};

// The number of states of a rule, and the ends of the interval of cells that it reads.
#[derive(Clone, Copy, PartialEq, Eq, Debug)]
pub struct Shape {
    pub states: u32,
    pub lo: i32,
    pub hi: i32,
}

// A rule. Its meaning is an automaton, which keeps the laws of a rule; no question changes it.
pub trait Rule {
    // The number of this kind of rule, as files have it.
    const KIND: u16;

    ghost KIND: { ℕ };

    ghost meaning: { Self → Automaton };

    fn shape(&self) -> Shape
        ensures answer { result ≡ shape_of (meaning self.now) };

    // The ends of the interval of the inverse, or none where there is no inverse.
    fn inverse(&self) -> Option<(i32, i32)>
        ensures answer { result ≡ ends (meaning self.now).inverse };

    // The next code of a cell, from the window of the cells around it.
    fn next(&self, window: &[u32]) -> Result<u32, RuleFault>
        ensures answer { result ≡ next_answer (meaning self.now) window.now };

    // The previous code of a cell, by the inverse.
    fn previous(&self, window: &[u32]) -> Result<u32, RuleFault>
        ensures answer { result ≡ previous_answer (meaning self.now) window.now };

    ghost lawful: { (x : Self) → Lawful (meaning x) };

    // The ends of the interval of a direction, or none where the rule does not go that way.
    final fn interval(&self, direction: Direction) -> Option<(i32, i32)>
        ensures answer { result ≡ ends (toward direction (meaning self.now)) }
    {
        match direction {
            Direction::Forward => {
                let shape = self.shape();
                Some((shape.lo, shape.hi))
            }
            Direction::Backward => self.inverse(),
        }
    }

    // The code of a cell one step on in a direction, from the window of the cells around it.
    final fn step(&self, direction: Direction, window: &[u32]) -> Result<u32, RuleFault>
        ensures answer { result ≡ answer (meaning self.now).states (toward direction (meaning self.now)) window.now }
    {
        match direction {
            Direction::Forward => self.next(window),
            Direction::Backward => self.previous(window),
        }
    }
}
