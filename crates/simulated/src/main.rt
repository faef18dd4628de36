// Runs a tower by a list of calls, refused ones among them, and compares what is read with the steps of the bottom rule itself.
#![tactic(auto)]

use anyhow::ensure;
use combinators::Lift;
use comparisons::Totals;
use floors::{Action, Floor};
use orbits::{EvolveFault, evolve};
use rings::Direction;
use rules::Table;
use runs::{Call, Run, simulate};
use std::alloc::Global;
use towers::{Ground, Tower};

// A ring of the bottom: codes below 4, now + 2 × before.
const RING: [u32; 12] = [1, 0, 3, 0, 0, 2, 1, 0, 0, 0, 2, 3];

const CALLS: [Call; 7] = [
    Call::Advance(3),
    Call::Advance(65_537),
    Call::Back(5),
    Call::Read,
    Call::Advance(70_000),
    Call::Advance(1),
    Call::Tell,
];

fn bottom() -> Lift<Table> {
    Lift::over(Table::elementary(30))
}

// Rule 30 lifted, on blocks of two cells, seen in a mirror, two steps at once.
fn tower() -> Floor<Floor<Floor<Ground<Lift<Table>>>>> {
    let packed = Floor::over(Ground::over(bottom()), Action::Pack(2));
    Floor::over(Floor::over(packed, Action::Mirror), Action::Iterate(2))
}

// What the bottom rule itself reaches in so many steps of the top.
fn bottom_ring(heap: Global, steps: i32) -> Result<Vec<u32>, EvolveFault> {
    let direction = if steps < 0 {
        Direction::Backward
    } else {
        Direction::Forward
    };
    let each = tower().numbers().steps as usize;
    let count = each.saturating_mul(steps.unsigned_abs() as usize);
    evolve(heap, &bottom(), direction, &RING, count)
}

// Says how a comparison came out.
fn word(same: bool) -> &'static str {
    if same { "the same" } else { "DIFFERENT" }
}

// Does the calls one by one, and shows the run after each.
fn show_calls(rt: &HostRuntime, totals: &mut Totals) -> anyhow::Result<()> {
    let mut a = [0; 6];
    let mut b = [0; 6];
    let mut third = [0; 12];
    let mut run = Run::make(tower(), &RING, &mut a, &b)?;
    println!(rt; "bottom ring {RING:?}")?;
    println!(rt; "encoded as top ring {:?}", run.present(&a, &b)?)?;
    for call in CALLS {
        match run.perform(&[call], &mut a, &mut b, &mut third) {
            None => println!(rt; "{call:?}: done")?,
            Some(refused) => println!(rt; "{call:?}: refused, {}", refused.fault)?,
        }
        let told = run.tell();
        let ring = run.present(&a, &b)?;
        println!(rt;
            "  step {}, buffer {:?}: top ring {ring:?}",
            told.steps, told.holder
        )?;
        run.read(&a, &b, &mut third)?;
        let reached = bottom_ring(rt.alloc(), told.steps)?;
        let same = third.as_slice() == reached.as_slice();
        totals.count(same);
        println!(rt; "  read {third:?}, the bottom rule itself: {}", word(same))?;
    }
    Ok(())
}

// Does the whole list in one call.
fn simulate_calls(rt: &HostRuntime, totals: &mut Totals) -> anyhow::Result<()> {
    let mut a = [0; 6];
    let mut b = [0; 6];
    let mut third = [0; 12];
    let simulation = simulate(tower(), &RING, &CALLS, &mut a, &mut b, &mut third)?;
    let told = simulation.told;
    println!(rt;
        "in one call: step {}, buffer {:?}",
        told.steps, told.holder
    )?;
    if let Some(refused) = simulation.refused {
        println!(rt;
            "  first refused call: {}, {}",
            refused.index, refused.fault
        )?;
    }
    let reached = bottom_ring(rt.alloc(), told.steps)?;
    let same = third.as_slice() == reached.as_slice();
    totals.count(same);
    println!(rt; "  read {third:?}, the bottom rule itself: {}", word(same))?;
    Ok(())
}

fn run(rt: &HostRuntime) -> anyhow::Result<()> {
    let mut totals = Totals::default();
    println!(rt; "Rule 30 lifted, packed by 2, mirrored, two steps at once")?;
    show_calls(rt, &mut totals)?;
    simulate_calls(rt, &mut totals)?;
    println!(rt;
        "{} readings the same, {} different",
        totals.same, totals.different
    )?;
    ensure!(totals.all_same(), "a reading is not what it should be");
    Ok(())
}

fn main(rt: HostRuntime) -> anyhow::Result<()> {
    run(&rt)
}
