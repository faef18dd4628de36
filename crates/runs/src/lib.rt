// Runs of a tower on a ring: make, advance, back, read, present and tell, lists of them, and the law of whole runs.
#![tactic(auto)]

mod calls;
mod fault;
mod lists;
mod run;
mod simulation;

pub use fault::RunFault;
pub use run::Run;
pub use simulation::{Simulation, simulate};

// Which buffer holds the ring of a run.
#[derive(Clone, Copy, PartialEq, Eq, Debug)]
pub enum Holder {
    A,
    B,
}

// What a run tells: how many cells its ring has, how many steps it has gone, those back taken off, and which buffer holds the ring.
#[derive(Clone, Copy, PartialEq, Eq, Debug)]
pub struct Told {
    pub cells: usize,
    pub steps: i32,
    pub holder: Holder,
}

// A call on a run.
#[derive(Clone, Copy, PartialEq, Eq, Debug)]
pub enum Call {
    // This many steps forward.
    Advance(u32),
    // This many steps back.
    Back(u32),
    Read,
    Present,
    Tell,
}

// A refused call of a list: its index and why.
#[derive(Clone, Copy, PartialEq, Eq, Debug)]
pub struct RefusedCall {
    pub index: usize,
    pub fault: RunFault,
}
