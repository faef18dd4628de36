// The sizes of a Turing machine.
ghost use Rattle.std.specs.Prelude.{◌≡◌, ◌+◌, ◌*◌, ◌<◌, true, false, IfSome, MatchOption};
ghost use Rattle.machines.specs.Sizes.{machine_fits};
ghost use Rattle.machines.specs.Transitions.{new_transition, transition_of};
ghost use Rattle.machines.specs.Turing.{code_of};

use crate::{Move, Transition};

const MAX_SYMBOLS: u32 = 64;

const MAX_HEADS: u32 = 64;

pub(crate) const MAX_TRANSITIONS: usize = 512;

// The numbers of symbols and of states of a head of a machine.
#[derive(Clone, Copy, PartialEq, Eq, Debug)]
pub(crate) struct Sizes {
    pub(crate) symbols: u32,
    pub(crate) heads: u32,
    ghost fits: { machine_fits symbols heads ≡ true },
}

impl Sizes {
    // These sizes, if they are those of a machine.
    pub(crate) fn new(symbols: u32, heads: u32) -> Option<Sizes>
        ensures { MatchOption result (machine_fits symbols heads ≡ false) (λ s. (s.symbols ≡ symbols) × (s.heads ≡ heads)) }
    {
        let fits = (1..=MAX_SYMBOLS).contains(&symbols)
            && (1..=MAX_HEADS).contains(&heads)
            && (symbols * heads) as usize <= MAX_TRANSITIONS;
        if !fits {
            return None;
        }
        Some(Sizes { symbols, heads })
    }

    // How many codes a cell has.
    pub(crate) fn code_count(self) -> u32
        ensures { result ≡ self.symbols * (self.heads + 1) }
    {
        self.symbols * (self.heads + 1)
    }

    // How many transitions a machine has: one for each state and symbol.
    pub(crate) fn transition_count(self) -> u32
        ensures { result ≡ self.symbols * self.heads }
    {
        self.symbols * self.heads
    }

    // The transition with this index of a machine that changes nothing. Behind the last one, which no call reads, the first is repeated.
    pub(crate) fn idle_transition(self, index: u32) -> Transition
        ensures { result ≡ new_transition self.symbols self.heads index }
    {
        let index = if index < self.transition_count() {
            index
        } else {
            0
        };
        Transition {
            write: index % self.symbols,
            step: Move::Stay,
            next: index / self.symbols,
        }
    }

    // The transition of three numbers, if they are in their ranges.
    pub(crate) fn transition_from(self, write: u32, step: u32, next: u32) -> Option<Transition>
        ensures { result ≡ transition_of self.symbols self.heads write step next }
    {
        let step = Move::try_from(step).ok()?;
        (write < self.symbols && next < self.heads).then_some(Transition { write, step, next })
    }

    // The code of a symbol, with the head in this state if there is one.
    pub(crate) fn code_of(self, symbol: u32, head: Option<u32>) -> u32
        requires { (symbol < self.symbols) × (IfSome head (λ z. z < self.heads)) }
        ensures { result ≡ code_of self.symbols symbol head }
    {
        match head {
            Some(state) => symbol + self.symbols * (state + 1),
            None => symbol,
        }
    }
}
