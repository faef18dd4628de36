// Why a ring is not reached.
ghost use Rattle.std.specs.Prelude.{◌≡◌};
ghost use Rattle.orbits.specs.declared.fault.EvolveFault.TheVariants.{Memory, Rule};

use rules::RuleFault;
use std::alloc::AllocError;
use std::error::Error;
use std::fmt;

#[derive(Clone, Copy, PartialEq, Eq, Debug)]
pub enum EvolveFault {
    // There is not enough memory.
    Memory,
    // The rule does not map the ring.
    Rule(RuleFault),
}

impl From<AllocError> for EvolveFault {
    ghost from_gives = { λ _ r. r ≡ Memory };

    fn from(_error: AllocError) -> EvolveFault {
        Self::Memory
    }
}

impl From<RuleFault> for EvolveFault {
    ghost from_gives = { λ e r. r ≡ Rule e };

    fn from(fault: RuleFault) -> EvolveFault {
        Self::Rule(fault)
    }
}

impl fmt::Display for EvolveFault {
    fn fmt<W: fmt::Write>(&self, f: &mut fmt::Formatter<W>) -> fmt::Result {
        match self {
            EvolveFault::Memory => write!(f, "{}", AllocError),
            EvolveFault::Rule(fault) => write!(f, "{fault}"),
        }
    }
}

impl Error for EvolveFault {}
