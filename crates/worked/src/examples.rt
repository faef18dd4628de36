// The worked rings, computed and compared with what is expected.
ghost use Rattle.worked.specs.Worked.{WorkedRings};

use crate::compute::{Reading, simulate};
use crate::show::{Report, Turn};
use combinators::Lift;
use comparisons::Totals;
use floors::{Action, Floor};
use machines::{Move, Turing};
use orbits::evolve;
use rings::Direction;
use rules::{RuleFault, Table};
use std::alloc::{AllocError, Global};
use towers::{Ground, Numbers, Tower};

// The longest ring on which two rules are compared.
const MAX_COMPARED: u32 = 8;

pub(crate) type FourFloors = Floor<Floor<Floor<Floor<Ground<Table>>>>>;

// Rule 110 reduced.
pub(crate) fn reduced_110() -> Floor<Ground<Table>> {
    Floor::over(Ground::over(Table::elementary(110)), Action::Reduce)
}

// Four floors over rule 110: pack 2, mirror, shift 3, iterate 4.
pub(crate) fn four_floors() -> FourFloors {
    let ground = Ground::over(Table::elementary(110));
    let mirrored = Floor::over(Floor::over(ground, Action::Pack(2)), Action::Mirror);
    Floor::over(Floor::over(mirrored, Action::Shift(3)), Action::Iterate(4))
}

// Computes the worked rings, and compares them with what is expected. That they are so is proved, too.
pub(crate) fn worked_rings(report: &mut Report<'_>) -> anyhow::Result<()>
    ensures law { WorkedRings }
{
    compute_rings(report)
}

fn compute_rings(report: &mut Report<'_>) -> anyhow::Result<()> {
    step_110(report)?;
    mirror_110(report)?;
    reduce_110(report)?;
    pile_floors(report)?;
    pack_states(report)?;
    lift_identity(report)?;
    step_machine(report)
}

// Rule 110 itself.
fn step_110(report: &mut Report<'_>) -> anyhow::Result<()> {
    let heap = report.rt.alloc();
    let rule = Table::elementary(110);
    let ring = [0, 0, 0, 1];
    let once = evolve(heap, &rule, Direction::Forward, &ring, 1)?;
    report.compare_rings("rule 110, 0 0 0 1 after a step", &once, &[0, 0, 1, 1])?;
    let twice = evolve(heap, &rule, Direction::Forward, &ring, 2)?;
    report.compare_rings("rule 110, 0 0 0 1 after two steps", &twice, &[0, 1, 1, 1])?;
    let cell = evolve(heap, &rule, Direction::Forward, &[1], 1)?;
    report.compare_rings("rule 110, the one cell 1 after a step", &cell, &[0])
}

// The ring of so many cells whose codes are the digits of a number in base 2.
fn binary_ring(heap: Global, cells: u32, number: u32) -> Result<Vec<u32>, AllocError> {
    (0..cells)
        .map(|cell| number.checked_shr(cell).unwrap_or(0) % 2)
        .collect(heap)
}

// Rule 110 mirrored is rule 124, on every ring of a few cells.
fn mirror_110(report: &mut Report<'_>) -> anyhow::Result<()> {
    let heap = report.rt.alloc();
    let mirrored = Floor::over(Ground::over(Table::elementary(110)), Action::Mirror);
    let rule = Table::elementary(124);
    let mut rings = Totals::default();
    for cells in 1..=MAX_COMPARED {
        for number in 0..1u32 << cells {
            let ring = binary_ring(heap, cells, number)?;
            let one = evolve(heap, &mirrored, Direction::Forward, &ring, 1)?;
            let other = evolve(heap, &rule, Direction::Forward, &ring, 1)?;
            rings.count(one.as_slice() == other.as_slice());
        }
    }
    let count = rings.sum();
    let word = report.count(rings.all_same());
    println!(report.rt;
        "  rule 110 mirrored and rule 124, a step of each of the {count} rings of 1 to {MAX_COMPARED} cells: {word}"
    )?;
    Ok(())
}

// Rule 110 reduced.
fn reduce_110(report: &mut Report<'_>) -> anyhow::Result<()> {
    let heap = report.rt.alloc();
    let ring = [0, 0, 0, 1];
    let start = simulate(heap, reduced_110(), &ring, 0)?;
    report.compare_rings("rule 110 reduced, 0 0 0 1 encoded", &start.top, &[0, 2])?;
    let Reading { top, told } = simulate(heap, reduced_110(), &ring, 1)?;
    report.compare_rings("rule 110 reduced, 0 2 after a step", &top, &[2, 1])?;
    report.compare_rings("rule 110 reduced, 2 1 read", &told, &[0, 0, 1, 1])
}

// The numbers of the four floors over rule 110.
fn pile_floors(report: &mut Report<'_>) -> anyhow::Result<()> {
    let Numbers {
        block,
        steps,
        drift,
        mirrored,
        ..
    } = four_floors().numbers();
    report.compare_rings(
        "four floors over rule 110, M and T",
        &[block, steps],
        &[2, 4],
    )?;
    report.compare(
        "four floors over rule 110, S and v",
        Turn { drift, mirrored },
        Turn {
            drift: -24,
            mirrored: true,
        },
    )
}

// Whether packs of so many cells of a rule with 8 states fit.
fn packs_fit(cells: u32) -> Result<bool, RuleFault> {
    let identity = Table::new(8, 0, 0, &[0, 1, 2, 3, 4, 5, 6, 7])?;
    Ok(Floor::build(Ground::over(identity), Action::Pack(cells), 1).is_ok())
}

// Packs of 8 and 9 cells with 8 states.
fn pack_states(report: &mut Report<'_>) -> anyhow::Result<()> {
    for (cells, expected) in [(8, true), (9, false)] {
        report.compare(
            format_args!("packs of {cells} cells with 8 states fit"),
            packs_fit(cells)?,
            expected,
        )?;
    }
    Ok(())
}

// The identity on three states, lifted.
fn lift_identity(report: &mut Report<'_>) -> anyhow::Result<()> {
    let heap = report.rt.alloc();
    let lift = Lift::over(Table::new(3, 0, 0, &[0, 1, 2])?);
    let next = evolve(heap, &lift, Direction::Forward, &[7], 1)?;
    report.compare_rings(
        "the identity on 3 states lifted, 7 after a step",
        &next,
        &[5],
    )?;
    let back = evolve(heap, &lift, Direction::Backward, &next, 1)?;
    report.compare_rings(
        "the identity on 3 states lifted, 5 a step before",
        &back,
        &[7],
    )
}

// A machine with one state and two symbols: on 0 it writes 1 and moves right, on 1 it writes 0 and moves left.
fn step_machine(report: &mut Report<'_>) -> anyhow::Result<()> {
    let heap = report.rt.alloc();
    let mut machine = Turing::new(2, 1)?;
    machine.enter(0, 1, u32::from(Move::Right), 0)?;
    machine.enter(1, 0, u32::from(Move::Left), 0)?;
    let tape = evolve(heap, &machine, Direction::Forward, &[2, 0], 1)?;
    report.compare_rings(
        "a machine that swaps 0 and 1, 2 0 after a step",
        &tape,
        &[1, 2],
    )?;
    let cell = evolve(heap, &machine, Direction::Forward, &[2], 1)?;
    report.compare_rings(
        "a machine that swaps 0 and 1, the one cell 2 after a step",
        &cell,
        &[3],
    )
}
