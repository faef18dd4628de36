// A rule in one direction, applied to the windows that a floor makes: of many steps, of blocks, and seen in a mirror.
ghost use Rattle.std.specs.Prelude.{◌≡◌, ◌+◌, ◌-◌, ◌*◌, ◌<◌, ◌≤◌, length, take};
ghost use Rattle.std.specs.Option.{option_map};
ghost use Rattle.std.proofs.Props.{props};
ghost use Rattle.rings.specs.Integers.{floor_mod};
ghost use Rattle.rings.specs.Line.{tabulate};
ghost use Rattle.rings.specs.Ring.{Codes};
ghost use Rattle.rings.specs.Automaton.{toward};
ghost use Rattle.rings.specs.Packing.{digit, unblocks};
ghost use Rattle.rings.specs.Transformations.{map_list_windows, iterate_local, mirror_local, pack_value};
ghost use Rattle.rules.specs.Steps.{value_of, Reads};
ghost use Rattle.rings.specs.Limits.{max_width};
ghost use Rattle.floors.specs.Asking.{HasWidth, Packing};

use crate::action::MAX_ARGUMENT;
use crate::numbers::Block;
use rings::{Direction, MAX_WIDTH, cell_at};
use rules::Rule;

// Room for the digits of the widest window. The library uses no heap: digits, and rows of cells, stand in arrays with room for the
// widest window. These are lent to what writes them, since an array that a function returns is copied.
const MAX_DIGITS: usize = MAX_WIDTH * MAX_ARGUMENT as usize;

// A rule in a direction in which it goes, with its number of states and the width of its windows.
#[derive(Drop)]
pub(crate) struct DirectedRule<'a, R: Rule> {
    pub rule: &'a R,
    pub direction: Direction,
    pub states: u32,
    pub width: usize,
    ghost same: { states ≡ (R.Rule.meaning rule.now).states },
    ghost wide: { HasWidth (toward direction (R.Rule.meaning rule.now)) width } by { Prim.hlevel props },
}

impl<R: Rule> DirectedRule<'_, R> {
    // The code at a window of the rule's own.
    pub(crate) fn apply(&self, window: &[u32]) -> u32
        requires { Reads self.now.states (toward self.now.direction (R.Rule.meaning self.now.rule.now)) window.now }
        ensures value { result ≡ value_of (toward self.now.direction (R.Rule.meaning self.now.rule.now)) window.now }
        ensures below { result < self.now.states }
    {
        self.rule.step(self.direction, window).unwrap()
    }

    // Puts the next row, which is width - 1 cells shorter, in place of the first cells of a row.
    fn advance(&self, row: &mut [u32])
        requires fits { self.now.width ≤ length row.old }
        requires codes { Codes self.now.states row.old }
        ensures { take (length row.old + 1 - self.now.width) row.new ≡ map_list_windows (value_of (toward self.now.direction (R.Rule.meaning self.now.rule.now))) self.now.width row.old }
    {
        // a loop over places: each step reads a window of the row into which it writes
        for i in 0..row.len() + 1 - self.width {
            row[i] = self.apply(&row[i..i + self.width]);
        }
    }

    // The code at a window of `times` steps.
    pub(crate) fn iterated(&self, times: u32, window: &[u32]) -> u32
        requires reads { Reads self.now.states (option_map (iterate_local times) (toward self.now.direction (R.Rule.meaning self.now.rule.now))) window.now }
        requires short { length window.now ≤ max_width }
        ensures { result ≡ value_of (option_map (iterate_local times) (toward self.now.direction (R.Rule.meaning self.now.rule.now))) window.now }
    {
        let mut row = [0; MAX_WIDTH];
        begin_row(window, &mut row);
        for left in (0..times as usize).rev() {
            self.advance(&mut row[..(left + 1) * (self.width - 1) + 1]);
        }
        row[0]
    }

    // The code at a window seen in a mirror.
    pub(crate) fn mirrored(&self, window: &[u32]) -> u32
        requires { Reads self.now.states (option_map mirror_local (toward self.now.direction (R.Rule.meaning self.now.rule.now))) window.now }
        ensures { result ≡ value_of (option_map mirror_local (toward self.now.direction (R.Rule.meaning self.now.rule.now))) window.now }
    {
        let mut row = [0; MAX_WIDTH];
        begin_row(window, &mut row);
        let turned = &mut row[..window.len()];
        turned.reverse();
        self.apply(turned)
    }

    // The code at a window of blocks, where the rule's interval begins at the cell lo.
    pub(crate) fn packed(&self, block: Block, lo: i32, window: &[u32]) -> u32
        requires { Packing self.now.states block.cells lo self.now.width (length window.now) }
        ensures { result ≡ pack_value self.now.states block.cells (value_of (toward self.now.direction (R.Rule.meaning self.now.rule.now))) (floor_mod lo block.cells) self.now.width window.now }
    {
        let mut digits = [0; MAX_DIGITS];
        unpack(window, self.states, block, &mut digits);
        let skip = cell_at(i64::from(lo), block.cells as usize).unwrap();
        let cells = &digits[skip..skip + block.cells as usize - 1 + self.width];
        let mut code = 0;
        let mut weight = 1;
        for window in cells.windows(self.width) {
            code += self.apply(window) * weight;
            weight *= self.states;
        }
        code
    }
}

// Writes a window over the first cells of a row.
fn begin_row(window: &[u32], row: &mut [u32])
    requires { length window.now ≤ length row.old }
    ensures { take (length window.now) row.new ≡ window.now }
{
    row[..window.len()].copy_from_slice(window);
}

// Writes the lowest digits of a code in the base `states`, as many as there are cells.
fn write_digits(code: u32, states: u32, cells: &mut [u32])
    requires { 1 ≤ states }
    ensures { cells.new ≡ tabulate (digit states code) (length cells.old) }
{
    let mut rest = code;
    for cell in cells.iter_mut() {
        *cell = rest % states;
        rest /= states;
    }
}

// Writes the digits of each code of a window over the first cells, one code after the other.
fn unpack(window: &[u32], states: u32, block: Block, cells: &mut [u32])
    requires some { 1 ≤ states }
    requires room { length window.now * block.cells ≤ length cells.old }
    ensures { take (length window.now * block.cells) cells.new ≡ unblocks states block.cells window.now }
{
    let size = block.cells as usize;
    // a loop over codes: each writes a part of the cells, and of parts that `chunks_mut` lends a proof knows nothing
    for (i, code) in window.iter().enumerate() {
        let start = i * size;
        write_digits(*code, states, &mut cells[start..start + size]);
    }
}
