// The rings that a rule reaches, step after step, on the heap.
#![tactic(auto)]

ghost use Rattle.std.specs.Prelude.{◌≡◌, None, MatchResult};
ghost use Rattle.rings.specs.Automaton.{after, toward_steps};
ghost use Rattle.orbits.specs.Orbits.{evolve_fault, Stops};

mod fault;

pub use fault::EvolveFault;
use rings::Direction;
use rules::{Rule, map_ring};
use std::alloc::Global;

// The ring that a rule reaches in so many steps of a direction.
pub fn evolve<R: Rule>(
    heap: Global,
    rule: &R,
    direction: Direction,
    ring: &[u32],
    steps: usize,
) -> Result<Vec<u32>, EvolveFault>
    ensures answer { MatchResult result (λ v. (evolve_fault direction (R.Rule.meaning rule.now) steps ring.now ≡ None) × (v.items ≡ after (R.Rule.meaning rule.now) (toward_steps direction steps) ring.now)) (λ e. Stops e (evolve_fault direction (R.Rule.meaning rule.now) steps ring.now)) }
{
    let mut current = Vec::from_slice(heap, ring)?;
    let mut next = Vec::from_slice(heap, ring)?;
    for _step in 0..steps {
        map_ring(rule, direction, &current, &mut next)?;
        std::mem::swap(&mut current, &mut next);
    }
    Ok(current)
}
