// A tower run from a ring, and read.
ghost use Rattle.std.specs.Prelude.{◌≡◌, pos, ◌*ℤ◌, IfOk};
ghost use Rattle.rings.specs.Automaton.{after};
ghost use Rattle.worked.specs.Worked.{read as Read-of};

use runs::Run;
use std::alloc::Global;
use towers::Tower;

// A top ring, and the bottom ring that it tells.
#[derive(Drop)]
pub(crate) struct Reading {
    pub(crate) top: Vec<u32>,
    pub(crate) told: Vec<u32>,
}

// Runs a tower from a bottom ring, so many top steps, and reads the run: the top ring tells what the bottom rule itself reaches.
pub(crate) fn simulate<T: Tower + Drop>(
    heap: Global,
    tower: T,
    ring: &[u32],
    steps: u8,
) -> anyhow::Result<Reading>
    ensures top { IfOk result (λ x. x.top.items ≡ after (T.Tower.tower tower).top (pos steps) ((T.Tower.tower tower).encode ring.now)) }
    ensures told { IfOk result (λ x. x.told.items ≡ after (T.Tower.tower tower).bottom (pos (T.Tower.tower tower).steps *ℤ pos steps) ring.now) }
    ensures read { IfOk result (λ x. x.told.items ≡ Read-of (T.Tower.tower tower) (pos steps) x.top.items) }
{
    let mut a = vec![in heap; 0; ring.len()]?;
    let mut b = vec![in heap; 0; ring.len()]?;
    let mut told = vec![in heap; 0; ring.len()]?;
    let (a, b) = (a.as_mut_slice(), b.as_mut_slice());
    let mut run = Run::make(tower, ring, a, b)?;
    run.advance(u32::from(steps), a, b)?;
    run.read(a, b, &mut told)?;
    let top = Vec::from_slice(heap, run.present(a, b)?)?;
    Ok(Reading { top, told })
}
