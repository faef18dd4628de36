// Steps rule 110 through towers, and computes the worked rings: each outcome is compared with what it should be.
#![tactic(auto)]

mod climb;
mod compute;
mod examples;
mod show;

use anyhow::ensure;
use climb::climb;
use comparisons::Totals;
use examples::{four_floors, reduced_110, worked_rings};
use rules::Table;
use show::Report;

fn run(rt: &HostRuntime) -> anyhow::Result<()> {
    let mut report = Report::new(rt);
    let rule = Table::elementary(110);
    println!(rt;
        "A step of a tower's top does T steps of the bottom rule, on an encoded ring, and turns the ring by S cells."
    )?;
    println!(rt; "Rule 110 reduced")?;
    climb(&mut report, reduced_110, &rule, &[0, 0, 0, 1], 1)?;
    println!(rt; "Rule 110 with four floors: pack 2, mirror, shift 3, iterate 4")?;
    climb(
        &mut report,
        four_floors,
        &rule,
        &[0, 0, 0, 1, 0, 0, 1, 1, 0, 1],
        3,
    )?;
    println!(rt; "Worked rings")?;
    worked_rings(&mut report)?;
    let Totals { same, different } = report.totals;
    println!(rt; "{same} comparisons the same, {different} different")?;
    ensure!(report.totals.all_same(), "a ring is not what it should be");
    Ok(())
}

fn main(rt: HostRuntime) -> anyhow::Result<()> {
    run(&rt)
}
