// Checks published evolutions of automata through the proved library, and tells how each came out.
#![tactic(auto)]

mod check;
#[cfg(test)]
mod tests;
mod vectors;

use anyhow::ensure;
use check::Published;
use comparisons::Totals;
use vectors::{BEAVER, ROWS, RUNS};

// Checks each of these evolutions, counts it, and tells in a line how it came out.
fn check_all<P: Published>(
    rt: &HostRuntime,
    totals: &mut Totals,
    published: &[P],
) -> anyhow::Result<()> {
    for evolution in published {
        print!(rt; "{evolution}: ")?;
        let difference = evolution.check(rt.alloc())?;
        totals.count(difference.is_none());
        match difference {
            None => println!(rt; "as published")?,
            Some(difference) => println!(rt; "WRONG {difference}")?,
        }
    }
    Ok(())
}

fn run(rt: &HostRuntime) -> anyhow::Result<()> {
    let mut totals = Totals::default();
    check_all(rt, &mut totals, &ROWS)?;
    check_all(rt, &mut totals, &RUNS)?;
    check_all(rt, &mut totals, &[BEAVER])?;
    let all = totals.sum();
    let Totals { same, different } = totals;
    println!(rt; "{all} evolutions checked: {same} as published, {different} wrong")?;
    ensure!(totals.all_same(), "an evolution is not as published");
    Ok(())
}

fn main(rt: HostRuntime) -> anyhow::Result<()> {
    run(&rt)
}
