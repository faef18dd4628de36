// What an action makes of the numbers of a tower.
ghost use Rattle.std.specs.Prelude.{◌≡◌, ◌*◌, ◌≤◌, true, ◌&&◌, neg_ℤ, ◌*ℤ◌, ◌+ℤ◌, pos, unsigned_abs};
ghost use Rattle.std.specs.Option.{option_map};
ghost use Rattle.std.proofs.Props.{props};
ghost use Rattle.rings.specs.Refusals.{outcome};
ghost use Rattle.towers.specs.Numbers.{numbers_of};
ghost use Rattle.towers.specs.Towers.{signed};
ghost use Rattle.floors.specs.declared.action.Action.TheVariants.{Reduce};
ghost use Rattle.floors.specs.Actions.{iterate_ends, shift_ends, mirror_ends, pack_ends, iterate_numbers, shift_numbers, mirror_numbers, pack_numbers, reduced_block, in_range, fits, inverse_fits, intervals_fit, within_limits};
ghost use Rattle.floors.specs.Acting.{LawfulEnds, Workable, limited, acted};
ghost use Rattle.floors.specs.Asking.{block_of, packed_numbers};
ghost use Rattle.floors.specs.Floors.{floor_fault};
ghost use Rattle.towers.specs.Limits.{max_block};
ghost use Rattle.floors.specs.Limits.{max_argument, max_turn};

use crate::Action;
use crate::action::MAX_ARGUMENT;
use rings::{MAX_STATES, ends_fit, interval_width, power_within};
use rules::RuleFault;
use towers::{Numbers, Tower, TowerFault};

const MAX_BLOCK: u32 = 65_536;

const MAX_STEPS: u32 = 65_536;

const MAX_DRIFT: u32 = 16_777_216;

// How many cells are packed into one.
#[derive(Clone, Copy)]
pub(crate) struct Block {
    pub cells: u32,
    ghost some: { 1 ≤ cells },
    ghost few: { cells ≤ max_argument },
}

// An interval that keeps the laws of a rule.
#[derive(Clone, Copy)]
struct Interval {
    lo: i32,
    hi: i32,
    ghost lawful: { LawfulEnds lo hi } by { Prim.hlevel props },
}

impl Interval {
    // The ends after this many steps at once.
    fn iterated(self, times: u32) -> (i32, i32)
        requires { times ≤ max_argument }
        ensures { result ≡ iterate_ends times (self.lo, self.hi) }
    {
        (self.lo * times as i32, self.hi * times as i32)
    }

    // The ends moved by s cells.
    fn shifted(self, s: i32) -> (i32, i32)
        requires { unsigned_abs s ≤ max_turn }
        ensures { result ≡ shift_ends s (self.lo, self.hi) }
    {
        (self.lo + s, self.hi + s)
    }

    // The ends seen in a mirror.
    fn mirrored(self) -> (i32, i32)
        ensures { result ≡ mirror_ends (self.lo, self.hi) }
    {
        (-self.hi, -self.lo)
    }

    // The ends on blocks.
    fn packed(self, block: Block) -> (i32, i32)
        ensures { result ≡ pack_ends block.cells (self.lo, self.hi) }
    {
        let cells = block.cells as i32;
        (
            self.lo.div_euclid(cells),
            (cells - 1 + self.hi).div_euclid(cells),
        )
    }
}

// The numbers of a tower, which an action can act on.
#[derive(Clone, Copy)]
pub(crate) struct TowerNumbers {
    pub numbers: Numbers,
    ghost workable: { Workable numbers } by { Prim.hlevel props },
}

impl TowerNumbers {
    pub(crate) fn of<T: Tower>(tower: &T) -> TowerNumbers
        ensures { result.numbers ≡ numbers_of (T.Tower.tower tower.now) }
    {
        TowerNumbers {
            numbers: tower.numbers(),
        }
    }

    // Refuses an action that is out of range or does not fit, for the floor with this number.
    pub(crate) fn check_action(self, action: Action, floor: usize) -> Result<(), TowerFault>
        ensures { result ≡ outcome (floor_fault action self.numbers floor) }
    {
        if !action.is_in_range() {
            return Err(TowerFault::Rule(RuleFault::OutOfRange));
        }
        self.act(action).ok_or(TowerFault::Unfit(floor))?;
        Ok(())
    }

    // The numbers after an action, if its argument is in range and its outcome fits.
    pub(crate) fn act(self, action: Action) -> Option<Numbers>
        ensures { result ≡ acted action self.numbers }
    {
        if !action.is_in_range() {
            return None;
        }
        match action {
            Action::Unchanged => limit(self.numbers),
            Action::Pack(cells) => self.packed(Block { cells }),
            Action::Iterate(times) => limit(self.iterated(times)),
            Action::Shift(s) => limit(self.shifted(s)),
            Action::Mirror => limit(self.mirrored()),
            Action::Reduce => self.reduced(),
        }
    }

    fn interval(self) -> Interval
        ensures { (result.lo ≡ self.numbers.lo) × (result.hi ≡ self.numbers.hi) }
    {
        Interval {
            lo: self.numbers.lo,
            hi: self.numbers.hi,
        }
    }

    // The interval of the inverse, if there is one.
    fn inverse(self) -> Option<Interval>
        ensures { option_map (λ i. (i.lo, i.hi)) result ≡ self.numbers.inverse }
    {
        self.numbers.inverse.map(
            |(lo, hi)|
                requires { LawfulEnds lo hi }
            { Interval { lo, hi } },
        )
    }

    // The numbers of this many steps at once. (Each action says what it makes of both intervals: a shift moves that of the inverse the
    // other way, so a shared function would take two closures, each with its clauses.)
    fn iterated(self, times: u32) -> Numbers
        requires { times ≤ max_argument }
        ensures { result ≡ iterate_numbers times self.numbers }
    {
        let (lo, hi) = self.interval().iterated(times);
        let inverse = self.inverse().map(|interval| interval.iterated(times));
        Numbers {
            lo,
            hi,
            inverse,
            steps: self.numbers.steps * times,
            drift: self.numbers.drift * times as i32,
            ..self.numbers
        }
    }

    // s, or -s in a mirrored tower.
    fn signed(self, s: i32) -> i32
        requires { unsigned_abs s ≤ max_turn }
        ensures { result ≡ signed self.numbers.mirrored s }
    {
        if self.numbers.mirrored { -s } else { s }
    }

    // By how many cells a rotation of the top by s cells turns the bottom ring.
    fn turn(self, s: i32) -> i32
        requires { unsigned_abs s ≤ max_turn }
        ensures value { result ≡ signed self.numbers.mirrored s *ℤ pos self.numbers.block }
        ensures small { unsigned_abs result ≤ max_turn * max_block }
    {
        self.signed(s) * self.numbers.block as i32
    }

    // The numbers of a step and a rotation by s cells.
    fn shifted(self, s: i32) -> Numbers
        requires { unsigned_abs s ≤ max_turn }
        ensures { result ≡ shift_numbers s self.numbers }
    {
        let (lo, hi) = self.interval().shifted(s);
        let inverse = self.inverse().map(|interval| interval.shifted(-s));
        Numbers {
            lo,
            hi,
            inverse,
            drift: self.numbers.drift + self.turn(s),
            ..self.numbers
        }
    }

    // The numbers shifted so that the interval begins at 0.
    fn shifted_to_zero(self) -> Numbers
        ensures { result ≡ shift_numbers (neg_ℤ self.numbers.lo) self.numbers }
    {
        self.shifted(-self.numbers.lo)
    }

    // The numbers seen in a mirror.
    fn mirrored(self) -> Numbers
        ensures { result ≡ mirror_numbers self.numbers }
    {
        let (lo, hi) = self.interval().mirrored();
        let inverse = self.inverse().map(|interval| interval.mirrored());
        Numbers {
            lo,
            hi,
            inverse,
            mirrored: !self.numbers.mirrored,
            ..self.numbers
        }
    }

    // The numbers on blocks, if they are within their limits.
    fn packed(self, block: Block) -> Option<Numbers>
        ensures { result ≡ limited (pack_numbers block.cells self.numbers) }
    {
        let states = power_within(self.numbers.states, block.cells, MAX_STATES)?;
        let (lo, hi) = self.interval().packed(block);
        let inverse = self.inverse().map(|interval| interval.packed(block));
        limit(Numbers {
            states,
            lo,
            hi,
            inverse,
            block: self.numbers.block * block.cells,
            ..self.numbers
        })
    }

    // How many cells reduction packs into one: the width less one, and at least one.
    fn reduced_block(self) -> u32
        ensures { result ≡ reduced_block self.numbers }
    {
        (interval_width(self.numbers.lo, self.numbers.hi) as u32 - 1).max(1)
    }

    // The numbers that an action packs, if it packs: reduction shifts them first.
    pub(crate) fn packed_numbers(self, action: Action) -> Numbers
        ensures { result ≡ packed_numbers action self.numbers }
    {
        match action {
            Action::Reduce => self.shifted_to_zero(),
            _ => self.numbers,
        }
    }

    // How many cells an action that fits packs into one; 1 where it does not pack.
    pub(crate) fn block(self, action: Action) -> Block
        requires { (in_range action && fits action self.numbers) ≡ true }
        ensures { result.cells ≡ block_of action self.numbers }
    {
        let cells = match action {
            Action::Pack(cells) => cells,
            Action::Reduce => self.reduced_block(),
            Action::Unchanged | Action::Iterate(_) | Action::Shift(_) | Action::Mirror => 1,
        };
        Block { cells }
    }

    // The numbers shifted so that the interval begins at 0 and then packed so that it has at most two cells, if they are within their
    // limits.
    fn reduced(self) -> Option<Numbers>
        ensures { result ≡ acted Reduce self.numbers }
    {
        let numbers = limit(self.shifted_to_zero())?;
        let cells = self.reduced_block();
        if cells > MAX_ARGUMENT {
            return None;
        }
        TowerNumbers { numbers }.packed(Block { cells })
    }
}

// The interval of an inverse, if there is one, keeps the laws of a rule.
fn inverse_fits(inverse: Option<(i32, i32)>) -> bool
    ensures { result ≡ inverse_fits inverse }
{
    inverse.is_none_or(|(lo, hi)| ends_fit(lo, hi))
}

// Both intervals keep the laws of a rule.
fn intervals_fit(numbers: Numbers) -> bool
    ensures { result ≡ intervals_fit numbers }
{
    ends_fit(numbers.lo, numbers.hi) && inverse_fits(numbers.inverse)
}

// All numbers are within their limits.
fn within_limits(numbers: Numbers) -> bool
    ensures { result ≡ within_limits numbers }
{
    numbers.states <= MAX_STATES
        && intervals_fit(numbers)
        && numbers.block <= MAX_BLOCK
        && numbers.steps <= MAX_STEPS
        && numbers.drift.unsigned_abs() <= MAX_DRIFT
}

// The numbers, if they are within their limits.
fn limit(numbers: Numbers) -> Option<Numbers>
    ensures { result ≡ limited numbers }
{
    within_limits(numbers).then_some(numbers)
}
