// Steps rule 110 on a ring of 2,048 cells as often as its argument says, an even number; with a second argument, by a run of the rule
// as a tower. bench/run times both against the same work in C.
#![tactic(auto)]

use rings::{Direction, MAX_CELLS};
use rules::{RuleFault, Table, map_ring};
use runs::Run;
use std::env;
use towers::Ground;

// The most steps that a run makes in one call.
const MOST_STEPS: u32 = 65_536;

// The ring in `even` after so many steps, with `odd` between: how many of its cells are 1.
// (By `orbits::evolve`, which was tried, a step took 9 in 100 longer.)
fn ones_after(
    rule: &Table,
    even: &mut [u32],
    odd: &mut [u32],
    steps: u32,
) -> Result<u32, RuleFault> {
    for _pair in 0..steps / 2 {
        map_ring(rule, Direction::Forward, even, odd)?;
        map_ring(rule, Direction::Forward, odd, even)?;
    }
    Ok(count_ones(even))
}

// How many cells of a ring of two states are 1.
fn count_ones(ring: &[u32]) -> u32 {
    ring.iter()
        .fold(0u32, |ones, code| ones.saturating_add(*code))
}

// The ring in `ring` after so many steps of a run: how many of its cells are 1.
fn ones_after_run(rule: Table, ring: &[u32], steps: u32) -> anyhow::Result<u32> {
    let mut a = [0; MAX_CELLS];
    let mut b = [0; MAX_CELLS];
    let mut run = Run::make(Ground::over(rule), ring, &mut a, &b)?;
    for _full in 0..steps / MOST_STEPS {
        run.advance(MOST_STEPS, &mut a, &mut b)?;
    }
    run.advance(steps % MOST_STEPS, &mut a, &mut b)?;
    Ok(count_ones(run.present(&a, &b)?))
}

fn run(rt: &HostRuntime) -> anyhow::Result<()> {
    let steps = match env::args(rt)?.nth(1) {
        Some(text) => text.as_str().parse::<u32>()?,
        None => 1,
    };
    let rule = Table::elementary(110);
    let mut even = [0; MAX_CELLS];
    let mut odd = [0; MAX_CELLS];
    even[MAX_CELLS - 1] = 1;
    // the loop makes two steps at a time: of an odd number the last step is left out, in a run too
    let paired = steps / 2 * 2;
    let ones = if env::args(rt)?.nth(2).is_some() {
        ones_after_run(rule, &even, paired)?
    } else {
        ones_after(&rule, &mut even, &mut odd, paired)?
    };
    println!(rt; "{ones} ones after {steps} steps")?;
    Ok(())
}

fn main(rt: HostRuntime) -> anyhow::Result<()> {
    run(&rt)
}
