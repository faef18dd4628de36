// What a Turing machine does at a symbol, and the list of all that it does.
ghost use Rattle.std.specs.Prelude.{◌≡◌, ◌<◌, slice_set};
ghost use Rattle.machines.specs.Sizes.{max_transitions};
ghost use Rattle.machines.specs.Transitions.{move_number, move_of, new_list};

use crate::sizes::{MAX_TRANSITIONS, Sizes};
use std::error::Error;
use std::{array, fmt};

// How a head moves, with the number that files hold.
#[derive(Clone, Copy, PartialEq, Eq, Debug)]
pub enum Move {
    Left = 0,
    Stay = 1,
    Right = 2,
}

// A number that is that of no move.
#[derive(Clone, Copy, PartialEq, Eq, Debug)]
pub struct UnknownMove(pub u32);

impl From<Move> for u32 {
    ghost from_gives = { λ step number. number ≡ move_number step };

    fn from(step: Move) -> u32 {
        step as u32
    }
}

impl TryFrom<u32> for Move {
    type Error = UnknownMove;

    ghost try_from_gives = { λ number result. result ≡ move_of number };

    fn try_from(number: u32) -> Result<Move, UnknownMove> {
        match number {
            0 => Ok(Move::Left),
            1 => Ok(Move::Stay),
            2 => Ok(Move::Right),
            _ => Err(UnknownMove(number)),
        }
    }
}

impl fmt::Display for UnknownMove {
    fn fmt<W: fmt::Write>(&self, f: &mut fmt::Formatter<W>) -> fmt::Result {
        write!(f, "no move has the number {}", self.0)
    }
}

impl Error for UnknownMove {}

// The symbol to write, the move and the next state of the head.
#[derive(Clone, Copy, PartialEq, Eq, Debug)]
pub struct Transition {
    pub write: u32,
    pub step: Move,
    pub next: u32,
}

// The transitions of a machine, in an array, as the library uses no heap. Users ask for this form: a plain struct inside another,
// whose own function changes one element.
#[derive(Clone, Copy)]
pub(crate) struct Transitions {
    pub(crate) list: [Transition; MAX_TRANSITIONS],
}

impl Transitions {
    // The transitions of a machine that changes nothing.
    pub(crate) fn idle(sizes: Sizes) -> Transitions
        ensures { result.list ≡ new_list sizes.symbols sizes.heads }
    {
        Transitions {
            list: array::from_fn(|index| sizes.idle_transition(index as u32)),
        }
    }

    // Changes the transition at an index.
    pub(crate) fn put(&mut self, index: usize, transition: Transition)
        requires { index < max_transitions }
        ensures { self.new.list ≡ slice_set self.old.list index transition }
    {
        self.list[index] = transition;
    }
}
