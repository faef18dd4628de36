// A floor: an action on the tower below it.
ghost use Rattle.std.specs.Prelude.{◌≡◌, ◌/◌, ◌<◌, true, ◌&&◌, Some, None, MatchResult, refl};
ghost use Rattle.rings.specs.Automaton.{toward};
ghost use Rattle.rules.specs.Answers.{answer};
ghost use Rattle.towers.specs.Numbers.{numbers_of};
ghost use Rattle.towers.specs.Standing.{top_lawful};
ghost use Rattle.floors.specs.Actions.{in_range, fits, floor_or};
ghost use Rattle.floors.specs.Asking.{interval};
ghost use Rattle.floors.specs.Floors.{packed_place, mirrored_place, moved_place, floor_fault};
ghost use Rattle.floors.specs.Kinds.{floor_kind};
ghost use Rattle.floors.specs.Laws.{FloorLaw};
ghost use Rattle.floors.specs.ActingLemmas.{floor_standing};

use crate::Action;
use crate::directed::DirectedRule;
use crate::numbers::{Block, TowerNumbers};
use rings::{Direction, Refused, interval_width};
use rules::{Rule, RuleFault, Shape, check_window};
use towers::{Numbers, Place, Tower, TowerFault};

// A floor over a tower. Where the action is out of range or does not fit, it acts as the tower below.
#[derive(Drop)]
pub struct Floor<T> {
    below: T,
    action: Action,
}

impl<T: Tower> Floor<T> {
    // The floor with this number over a tower; a refusal brings the tower back.
    pub fn build(below: T, action: Action, floor: usize) -> Result<Floor<T>, Refused<T, TowerFault>>
        ensures answer { MatchResult result (λ f. (floor_fault action (numbers_of (T.Tower.tower below)) floor ≡ None) × (f.below ≡ below) × (f.action ≡ action)) (λ e. (floor_fault action (numbers_of (T.Tower.tower below)) floor ≡ Some e.fault) × (e.given ≡ below)) }
        ensures law { FloorLaw action (T.Tower.tower below) }
    {
        match TowerNumbers::of(&below).check_action(action, floor) {
            Ok(()) => Ok(Floor { below, action }),
            Err(fault) => Err(Refused {
                fault,
                given: below,
            }),
        }
    }

    // A floor with any action: it never refuses.
    pub fn over(below: T, action: Action) -> Floor<T>
        ensures answer { (result.below ≡ below) × (result.action ≡ action) }
        ensures law { FloorLaw action (T.Tower.tower below) }
    {
        Floor { below, action }
    }

    // What the top answers in a direction: what its action makes of the top below, or the top below where it does not act.
    #[tactic(auto, using(crate::proofs::Answering::keeps))]
    fn answer(&self, direction: Direction, window: &[u32]) -> Result<u32, RuleFault>
        ensures { result ≡ answer (floor_or self.now.action (T.Tower.tower self.now.below)).top.states (toward direction (floor_or self.now.action (T.Tower.tower self.now.below)).top) window.now }
    {
        // these two leave what a window gives as it is (a shift moves the interval alone), so the tower below answers, fit or not
        if let Action::Unchanged | Action::Shift(_) = self.action {
            return self.below.step(direction, window);
        }
        let below = TowerNumbers::of(&self.below);
        let Some(top) = below.act(self.action) else {
            return self.below.step(direction, window);
        };
        let (first, last) = interval(top, direction).ok_or(RuleFault::NoInverse)?;
        check_window(window, top.states, interval_width(first, last))?;
        let (lo, hi) = interval(below.packed_numbers(self.action), direction).ok_or(
            RuleFault::NoInverse,
        )?;
        let rule = &DirectedRule {
            rule: &self.below,
            direction,
            states: below.numbers.states,
            width: interval_width(lo, hi),
        };
        Ok(match self.action {
            Action::Unchanged | Action::Shift(_) => unreachable!(),
            Action::Iterate(times) => rule.iterated(times, window),
            Action::Mirror => rule.mirrored(window),
            Action::Pack(_) | Action::Reduce => rule.packed(below.block(self.action), lo, window),
        })
    }
}

impl<T: Tower> Rule for Floor<T> {
    const KIND: u16 = 0x0030;

    ghost KIND = { floor_kind };

    ghost meaning = { λ x. (floor_or x.action (T.Tower.tower x.below)).top };

    ghost lawful = { λ x. top_lawful _ (floor_standing x.action _ (T.Tower.stands x.below)) };

    fn shape(&self) -> Shape {
        let Numbers { states, lo, hi, .. } = self.numbers();
        Shape { states, lo, hi }
    }

    fn inverse(&self) -> Option<(i32, i32)> {
        self.numbers().inverse
    }

    fn next(&self, window: &[u32]) -> Result<u32, RuleFault> {
        self.answer(Direction::Forward, window)
    }

    fn previous(&self, window: &[u32]) -> Result<u32, RuleFault> {
        self.answer(Direction::Backward, window)
    }
}

impl<T: Tower> Tower for Floor<T> {
    ghost tower = { λ x. floor_or x.action (T.Tower.tower x.below) };

    ghost stands = { λ x. floor_standing x.action _ (T.Tower.stands x.below) };

    ghost is_top = { λ x. refl };

    fn numbers(&self) -> Numbers {
        let below = TowerNumbers::of(&self.below);
        below.act(self.action).unwrap_or(below.numbers)
    }

    fn place(&self, n: usize, j: usize) -> Result<Place, TowerFault> {
        let below = TowerNumbers::of(&self.below);
        let Some(top) = below.act(self.action) else {
            return self.below.place(n, j);
        };
        if n % top.block as usize != 0 {
            return Err(TowerFault::Ragged);
        }
        let place = self.below.place(n, j)?;
        Ok(moved_place(self.action, below, n, place))
    }
}

// The ends of the interval of a direction, from numbers that are known. (`Rule::interval` would ask the whole tower for them once
// more, and of the numbers that are packed there is no rule to ask.)
fn interval(numbers: Numbers, direction: Direction) -> Option<(i32, i32)>
    ensures { result ≡ interval direction numbers }
{
    match direction {
        Direction::Forward => Some((numbers.lo, numbers.hi)),
        Direction::Backward => numbers.inverse,
    }
}

// The place after cells of `digits` digits each are packed into blocks.
fn packed_place(place: Place, block: Block, digits: u32) -> Place
    requires { place.digit < digits }
    ensures { result ≡ packed_place block.cells digits place }
{
    let cells = block.cells as usize;
    Place {
        cell: place.cell / cells,
        digit: place.cell % cells * digits as usize + place.digit,
    }
}

// The place in the mirror, in a ring of this many cells.
fn mirrored_place(place: Place, cells: usize) -> Place
    requires { place.cell < cells }
    ensures { result ≡ mirrored_place cells place }
{
    Place {
        cell: cells - 1 - place.cell,
        digit: place.digit,
    }
}

// The place after an action on a tower with these numbers, for a bottom ring of n cells.
fn moved_place(action: Action, below: TowerNumbers, n: usize, place: Place) -> Place
    requires fit { (in_range action && fits action below.numbers) ≡ true }
    requires inside { (place.cell < n / below.numbers.block) × (place.digit < below.numbers.block) }
    ensures { result ≡ moved_place action below.numbers n place }
{
    let digits = below.numbers.block;
    match action {
        Action::Unchanged | Action::Iterate(_) | Action::Shift(_) => place,
        Action::Mirror => mirrored_place(place, n / digits as usize),
        Action::Pack(_) | Action::Reduce => packed_place(place, below.block(action), digits),
    }
}
