// One step of a whole ring, by any rule.
ghost use Rattle.std.specs.Prelude.{◌≡◌, ◌<◌, ◌≤◌, length, pos, Some};
ghost use Rattle.rings.specs.Line.{window};
ghost use Rattle.rings.specs.Limits.{max_cells};
ghost use Rattle.rings.specs.Ring.{at, Ring};
ghost use Rattle.rings.specs.Automaton.{toward, StepsAdd};
ghost use Rattle.rings.specs.Refusals.{outcome};
ghost use Rattle.rules.specs.Answers.{ends};
ghost use Rattle.rules.specs.Maps.{ring_fault, image, written_over, map_answer, map_buffer, StepLaws};

use crate::{Rule, RuleFault, check_codes, check_length};
use rings::{Direction, MAX_CELLS, MAX_WIDTH, cell_at, interval_width};

// Room for the largest ring and the widest window, in an array: the library uses no heap.
const MAX_UNROLLED: usize = MAX_CELLS + MAX_WIDTH;

// Writes the image of a ring under one step of a rule into the first cells of a buffer.
pub fn map_ring<R: Rule>(
    rule: &R,
    direction: Direction,
    ring: &[u32],
    buffer: &mut [u32],
) -> Result<(), RuleFault>
    ensures answer { result ≡ map_answer direction (R.Rule.meaning rule.now) ring.now buffer.old }
    ensures buffer { buffer.new ≡ map_buffer direction (R.Rule.meaning rule.now) ring.now buffer.old }
    ensures law { StepLaws direction (R.Rule.meaning rule.now) }
    ensures steps { StepsAdd (R.Rule.meaning rule.now) }
{
    let interval = rule.interval(direction).ok_or(RuleFault::NoInverse)?;
    check_ring(ring, rule.shape().states, buffer.len())?;
    write_image(rule, direction, interval, ring, buffer);
    Ok(())
}

// Refuses a ring that is not mapped into a buffer of `room` cells.
fn check_ring(ring: &[u32], states: u32, room: usize) -> Result<(), RuleFault>
    ensures { result ≡ outcome (ring_fault states ring.now room) }
{
    check_length(ring, MAX_CELLS)?;
    if room < ring.len() {
        return Err(RuleFault::ShortBuffer);
    }
    check_codes(ring, states)
}

// Fills cells with those of the ring from the place `start` on, round and round.
fn unroll(ring: &[u32], start: usize, cells: &mut [u32])
    requires { start < length ring.now }
    ensures { cells.new ≡ window (at ring.now) (pos start) (length cells.old) }
{
    // the place goes round by a test, as a remainder would take a division for each cell
    let mut place = start;
    for cell in cells.iter_mut() {
        *cell = ring[place];
        place = if place + 1 < ring.len() { place + 1 } else { 0 };
    }
}

// Writes the image of a ring that is known to be good, by a rule whose interval has these ends.
fn write_image<R: Rule>(
    rule: &R,
    direction: Direction,
    interval: (i32, i32),
    ring: &[u32],
    buffer: &mut [u32],
)
    requires ends { ends (toward direction (R.Rule.meaning rule.now)) ≡ Some interval }
    requires ring { Ring (R.Rule.meaning rule.now).states ring.now }
    requires sizes { (length ring.now ≤ max_cells) × (length ring.now ≤ length buffer.old) }
    ensures { buffer.new ≡ written_over (image (toward direction (R.Rule.meaning rule.now)) ring.now) buffer.old }
{
    let (lo, hi) = interval;
    let start = cell_at(i64::from(lo), ring.len()).unwrap();
    let width = interval_width(lo, hi);
    let mut store = [0; MAX_UNROLLED];
    let unrolled = &mut store[..ring.len() + width];
    unroll(ring, start, unrolled);
    // by index, as of cells that are lent to a `zip` a proof knows nothing
    for (i, cell) in buffer[..ring.len()].iter_mut().enumerate() {
        *cell = rule.step(direction, &unrolled[i..i + width]).unwrap();
    }
}
