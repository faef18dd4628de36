// Why a tower refuses: the cases, their numbers and their places.
ghost use Rattle.std.specs.Prelude.{◌≡◌};
ghost use Rattle.towers.specs.declared.fault.TowerFault.TheVariants.{Rule};
ghost use Rattle.towers.specs.Faults.{tower_fault_number, tower_fault_place};

use rules::RuleFault;
use std::error::Error;
use std::fmt;

#[derive(Clone, Copy, PartialEq, Eq, Debug)]
pub enum TowerFault {
    // A refusal of the rule, or one that a rule has too.
    Rule(RuleFault),
    // The number of cells is not a multiple of the block.
    Ragged,
    // The action of this floor does not fit.
    Unfit(usize),
}

impl TowerFault {
    // The number of the refusal, beside its place: a conversion could give but one of the two.
    pub fn number(self) -> u16
        ensures answer { result ≡ tower_fault_number self }
    {
        match self {
            TowerFault::Rule(cause) => cause.number(),
            TowerFault::Ragged => 3,
            TowerFault::Unfit(_) => 11,
        }
    }

    // The index or the floor that the refusal points at. Users ask that a place that is not named is 0.
    pub fn place(self) -> usize
        ensures answer { result ≡ tower_fault_place self }
    {
        match self {
            TowerFault::Rule(cause) => cause.place(),
            TowerFault::Ragged => 0,
            TowerFault::Unfit(floor) => floor,
        }
    }
}

impl From<RuleFault> for TowerFault {
    ghost from_gives = { λ e r. r ≡ Rule e };

    fn from(fault: RuleFault) -> TowerFault {
        TowerFault::Rule(fault)
    }
}

impl fmt::Display for TowerFault {
    fn fmt<W: fmt::Write>(&self, f: &mut fmt::Formatter<W>) -> fmt::Result {
        match self {
            TowerFault::Rule(cause) => write!(f, "{cause}"),
            TowerFault::Ragged => f.write_str("the number of cells is not a multiple of the block"),
            TowerFault::Unfit(floor) => write!(f, "the action of floor {floor} does not fit"),
        }
    }
}

impl Error for TowerFault {}
