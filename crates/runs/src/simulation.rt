// A whole simulation: a run made, a list of calls, and what it came to. The buffers are the caller's.
ghost use Rattle.std.specs.Prelude.{◌≡◌};
ghost use Rattle.runs.specs.Laws.{Apart};
ghost use Rattle.runs.specs.Simulations.{Simulated};

use crate::{Call, RefusedCall, Run, RunFault, Told};
use rings::Refused;
use towers::Tower;

// What a simulation came to: the run, what it tells, and the first refused call of the list.
#[derive(Drop)]
pub struct Simulation<T> {
    pub run: Run<T>,
    pub told: Told,
    pub refused: Option<RefusedCall>,
}

// Makes a run of a tower from a bottom ring, does a list of calls, and reads the bottom ring that is reached into the third buffer.
// The top ring that is reached stands in the buffer that holds it.
pub fn simulate<T: Tower>(
    tower: T,
    ring: &[u32],
    calls: &[Call],
    a: &mut [u32],
    b: &mut [u32],
    third: &mut [u32],
) -> Result<Simulation<T>, Refused<T, RunFault>>
    ensures answer { Simulated (T.Tower.tower tower) tower ring.now calls.now a.old b.old third.old result a.new b.new third.new }
    ensures apart { Apart (T.Tower.tower tower) }
{
    let block = tower.numbers().block as usize;
    // how many top cells all three buffers have room for
    let room = a.len().min(b.len()).min(third.len() / block);
    let mut run = Run::begin(tower, ring, room, a)?;
    let refused = run.perform(calls, a, b, third);
    run.read(a, b, third).unwrap();
    let told = run.tell();
    Ok(Simulation { run, told, refused })
}
