// A Turing machine: its sizes and its transitions.
ghost use Rattle.std.specs.Prelude.{◌≡◌, length};
ghost use Rattle.std.specs.List.{AllPass};
ghost use Rattle.machines.specs.Sizes.{max_transitions};
ghost use Rattle.machines.specs.Transitions.{transition_fits};

use crate::sizes::Sizes;
use crate::transition::Transitions;

// A machine with so many symbols, so many states of a head, and a transition for each state and symbol.
#[derive(Drop)]
pub struct Turing {
    pub(crate) sizes: Sizes,
    pub(crate) transitions: Transitions,
    ghost full: { length transitions.list ≡ max_transitions },
    ghost proper: { AllPass (transition_fits sizes.symbols sizes.heads) transitions.list },
}
