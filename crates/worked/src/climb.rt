// A tower climbed: a ring encoded, stepped at the top, and read.
use crate::compute::{Reading, simulate};
use crate::show::{Cells, NumberLines, Report};
use orbits::evolve;
use rings::Direction;
use rules::Rule;
use towers::Tower;

// Runs a tower from a ring, and compares what each top ring tells with the steps of the bottom rule itself. Each number of steps is a run
// of its own, which takes a tower.
pub(crate) fn climb<T: Tower + Drop, R: Rule, F: Fn() -> T>(
    report: &mut Report<'_>,
    make_tower: F,
    bottom: &R,
    ring: &[u32],
    count: u8,
) -> anyhow::Result<()>
    requires { F.IsAlwaysCallable make_tower }
{
    let rt = report.rt;
    let heap = rt.alloc();
    let numbers = make_tower().numbers();
    print!(rt; "{}", NumberLines(numbers))?;
    println!(rt; "  bottom ring: {}", Cells(ring))?;
    let start = simulate(heap, make_tower(), ring, 0)?;
    println!(rt; "  encoded as top ring: {}", Cells(&start.top))?;
    for k in 1..=count {
        let Reading { top, told } = simulate(heap, make_tower(), ring, k)?;
        println!(rt; "  top ring after step {k}: {}", Cells(&top))?;
        println!(rt; "    decoded and turned back: {}", Cells(&told))?;
        let steps = (numbers.steps as usize).saturating_mul(usize::from(k));
        let reached = evolve(heap, bottom, Direction::Forward, ring, steps)?;
        let word = report.count(told.as_slice() == reached.as_slice());
        println!(rt;
            "    the bottom rule itself, step {steps}: {}, {word}",
            Cells(&reached)
        )?;
    }
    Ok(())
}
