// Why a run refuses: the cases, their numbers and their places.
ghost use Rattle.std.specs.Prelude.{◌≡◌};
ghost use Rattle.towers.specs.declared.fault.TowerFault.TheVariants.{Rule};
ghost use Rattle.runs.specs.declared.fault.RunFault.TheVariants.{Tower};
ghost use Rattle.runs.specs.Faults.{run_fault_number, run_fault_place};

use rules::RuleFault;
use std::error::Error;
use std::fmt;
use towers::TowerFault;

#[derive(Clone, Copy, PartialEq, Eq, Debug)]
pub enum RunFault {
    // A refusal of the tower, or one that a tower or a rule has too.
    Tower(TowerFault),
    // The count is over its limit, or would lead the run past its limit of steps.
    TooFar,
}

impl RunFault {
    // The number of the refusal, beside its place: a conversion could give but one of the two.
    pub fn number(self) -> u16
        ensures answer { result ≡ run_fault_number self }
    {
        match self {
            RunFault::Tower(cause) => cause.number(),
            RunFault::TooFar => 6,
        }
    }

    // The index that the refusal points at. Users ask that every place that is not named is 0.
    pub fn place(self) -> usize
        ensures answer { result ≡ run_fault_place self }
    {
        match self {
            RunFault::Tower(cause) => cause.place(),
            RunFault::TooFar => 0,
        }
    }
}

impl From<TowerFault> for RunFault {
    ghost from_gives = { λ e r. r ≡ Tower e };

    fn from(fault: TowerFault) -> RunFault {
        RunFault::Tower(fault)
    }
}

impl From<RuleFault> for RunFault {
    ghost from_gives = { λ e r. r ≡ Tower (Rule e) };

    fn from(fault: RuleFault) -> RunFault {
        RunFault::Tower(fault.into())
    }
}

impl fmt::Display for RunFault {
    fn fmt<W: fmt::Write>(&self, f: &mut fmt::Formatter<W>) -> fmt::Result {
        match self {
            RunFault::Tower(cause) => write!(f, "{cause}"),
            RunFault::TooFar => f.write_str("the count of steps is past its limit"),
        }
    }
}

impl Error for RunFault {}
