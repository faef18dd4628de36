// What a floor does to the tower below it.
ghost use Rattle.std.specs.Prelude.{◌≡◌};
ghost use Rattle.floors.specs.Acting.{action_answer};
ghost use Rattle.floors.specs.Actions.{action_number, in_range};

use rules::RuleFault;
use towers::TowerFault;

// The greatest argument of an action; the least is its negative or 1.
pub(crate) const MAX_ARGUMENT: u32 = 16;

#[derive(Clone, Copy, PartialEq, Eq, Debug)]
pub enum Action {
    // Nothing.
    Unchanged,
    // Packs this many cells into one.
    Pack(u32),
    // Makes this many steps at once.
    Iterate(u32),
    // Rotates the ring by this many cells after each step.
    Shift(i32),
    // Reflects the ring.
    Mirror,
    // Shifts so that the interval begins at 0, and packs so that it has at most two cells.
    Reduce,
}

impl Action {
    // The action with this number and this argument, the two numbers that files hold.
    pub fn new(number: u16, argument: i16) -> Result<Action, TowerFault>
        ensures answer { result ≡ action_answer number argument }
    {
        let action = match (number, argument) {
            (0, 0) => Some(Action::Unchanged),
            (1, 1..) => Some(Action::Pack(u32::from(argument.unsigned_abs()))),
            (2, 1..) => Some(Action::Iterate(u32::from(argument.unsigned_abs()))),
            (3, _) => Some(Action::Shift(i32::from(argument))),
            (4, 0) => Some(Action::Mirror),
            (5, 0) => Some(Action::Reduce),
            _ => None,
        };
        action
            .filter(|action| action.is_in_range())
            .ok_or(TowerFault::Rule(RuleFault::OutOfRange))
    }

    // The number of the action, beside its argument: a conversion could give but one of the two.
    pub fn number(self) -> u16
        ensures answer { result ≡ action_number self }
    {
        match self {
            Action::Unchanged => 0,
            Action::Pack(_) => 1,
            Action::Iterate(_) => 2,
            Action::Shift(_) => 3,
            Action::Mirror => 4,
            Action::Reduce => 5,
        }
    }

    // The argument is in its range.
    pub(crate) fn is_in_range(self) -> bool
        ensures { result ≡ in_range self }
    {
        match self {
            Action::Pack(m) | Action::Iterate(m) => (1..=MAX_ARGUMENT).contains(&m),
            Action::Shift(s) => s.unsigned_abs() <= MAX_ARGUMENT,
            Action::Unchanged | Action::Mirror | Action::Reduce => true,
        }
    }
}
