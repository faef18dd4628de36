// The second-order lift of a rule, which makes it reversible.
ghost use Rattle.std.specs.Prelude.{◌≡◌, ◌+◌, ◌*◌, ◌<◌, ◌≤◌, true, false, length, if◌then◌else◌, Some, None, MatchResult};
ghost use Rattle.rings.specs.Automaton.{toward};
ghost use Rattle.rules.specs.declared.fault.RuleFault.TheVariants.{Unliftable};
ghost use Rattle.rules.specs.Answers.{shape_of, answer};
ghost use Rattle.combinators.specs.Kinds.{lift_kind};
ghost use Rattle.combinators.specs.Lifts.{half, rejoined, lifted, liftable, lift_or, LiftLaws};
ghost use Rattle.combinators.specs.Frames.{frame_of, framed_halves};
ghost use Rattle.combinators.specs.LiftsLemmas.{lawful_lift_or};

use rings::{Direction, MAX_STATES, MAX_WIDTH, Refused, interval_width, power_within};
use rules::{Rule, RuleFault, Shape, check_window};

// A lift over a rule. Over a rule that cannot be lifted it acts as the rule itself.
#[derive(Drop)]
pub struct Lift<R> {
    rule: R,
}

impl<R: Rule> Lift<R> {
    // The lift of a rule; a rule that cannot be lifted comes back with the refusal.
    pub fn build(rule: R) -> Result<Lift<R>, Refused<R, RuleFault>>
        ensures answer { MatchResult result (λ l. (liftable (shape_of (R.Rule.meaning rule)) ≡ true) × (l.rule ≡ rule)) (λ e. (liftable (shape_of (R.Rule.meaning rule)) ≡ false) × (e.fault ≡ Unliftable) × (e.given ≡ rule)) }
        ensures law { LiftLaws (R.Rule.meaning rule) }
    {
        if Frame::of(rule.shape()).is_none() {
            return Err(Refused {
                fault: RuleFault::Unliftable,
                given: rule,
            });
        }
        Ok(Lift { rule })
    }

    // A lift over any rule: it never refuses, and acts as a rule that cannot be lifted.
    pub fn over(rule: R) -> Lift<R>
        ensures answer { result.rule ≡ rule }
        ensures law { LiftLaws (R.Rule.meaning rule) }
    {
        Lift { rule }
    }

    // The code of a cell one step on in a direction.
    fn answer(&self, direction: Direction, window: &[u32]) -> Result<u32, RuleFault>
        ensures { result ≡ answer (lift_or (R.Rule.meaning self.now.rule)).states (toward direction (lift_or (R.Rule.meaning self.now.rule))) window.now }
    {
        match Frame::of(self.rule.shape()) {
            Some(frame) => frame.answer(&self.rule, direction, window),
            None => self.rule.step(direction, window),
        }
    }
}

impl<R: Rule> Rule for Lift<R> {
    const KIND: u16 = 0x0020;

    ghost KIND = { lift_kind };

    ghost meaning = { λ l. lift_or (R.Rule.meaning l.rule) };

    ghost lawful = { λ x. lawful_lift_or _ (R.Rule.lawful x.rule) };

    fn shape(&self) -> Shape {
        let shape = self.rule.shape();
        Frame::of(shape).map_or(shape, |frame| frame.lift)
    }

    fn inverse(&self) -> Option<(i32, i32)> {
        match Frame::of(self.rule.shape()) {
            Some(frame) => Some((frame.lift.lo, frame.lift.hi)),
            None => self.rule.inverse(),
        }
    }

    fn next(&self, window: &[u32]) -> Result<u32, RuleFault> {
        self.answer(Direction::Forward, window)
    }

    fn previous(&self, window: &[u32]) -> Result<u32, RuleFault> {
        self.answer(Direction::Backward, window)
    }
}

// The lift of a rule that can be lifted: its shape, and how its windows lie.
#[derive(Clone, Copy)]
struct Frame {
    // The number of states of the rule.
    states: u32,
    // The shape of the lift.
    lift: Shape,
    // How many cells a window of the lift has.
    cells: usize,
    // The index of the first cell that the rule reads, how many it reads, and the index of the cell itself.
    first: usize,
    width: usize,
    own: usize,
}

impl Frame {
    // The frame of a rule of this shape, if the rule can be lifted.
    fn of(shape: Shape) -> Option<Frame>
        ensures { result ≡ (if liftable shape then Some (frame_of shape) else None) }
    {
        let states = power_within(shape.states, 2, MAX_STATES)?;
        let lo = shape.lo.min(0);
        let hi = shape.hi.max(0);
        let cells = interval_width(lo, hi);
        if cells > MAX_WIDTH {
            return None;
        }
        Some(Frame {
            states: shape.states,
            lift: Shape { states, lo, hi },
            cells,
            first: interval_width(lo, shape.lo) - 1,
            width: interval_width(shape.lo, shape.hi),
            own: interval_width(lo, 0) - 1,
        })
    }

    // Writes the halves that the rule reads, from a window of the lift.
    fn read_halves(self, direction: Direction, window: &[u32], halves: &mut [u32])
        requires some { 1 ≤ self.states }
        requires inside { self.first + self.width ≤ length window.now }
        requires room { length halves.old ≡ self.width }
        ensures { halves.new ≡ framed_halves self direction window.now }
    {
        // by index, as of cells that are lent to a `zip` a proof knows nothing
        for (i, cell) in halves.iter_mut().enumerate() {
            *cell = half(direction, self.states, window[self.first + i]);
        }
    }

    // The code of a cell one step on in a direction, by the lift of the rule whose frame this is.
    fn answer<R: Rule>(
        self,
        rule: &R,
        direction: Direction,
        window: &[u32],
    ) -> Result<u32, RuleFault>
        requires small { liftable (shape_of (R.Rule.meaning rule.now)) ≡ true }
        requires frame { self ≡ frame_of (shape_of (R.Rule.meaning rule.now)) }
        ensures { result ≡ answer (lifted (R.Rule.meaning rule.now)).states (toward direction (lifted (R.Rule.meaning rule.now))) window.now }
    {
        check_window(window, self.lift.states, self.cells)?;
        // an array, as the library uses no heap
        let mut store = [0; MAX_WIDTH];
        let halves = &mut store[..self.width];
        self.read_halves(direction, window, halves);
        let value = rule.next(halves)?;
        Ok(rejoin(direction, self.states, value, window[self.own]))
    }
}

// The half of a code of the lift that the rule reads.
fn half(direction: Direction, states: u32, code: u32) -> u32
    requires { 1 ≤ states }
    ensures { result ≡ half direction states code }
{
    match direction {
        Direction::Forward => code % states,
        Direction::Backward => code / states,
    }
}

// The new code of a cell, from the value of the rule at the halves that it reads and the cell's own code.
fn rejoin(direction: Direction, states: u32, value: u32, own: u32) -> u32
    requires { (states ≤ 4096) × ((value < states) × (own < states * states)) }
    ensures { result ≡ rejoined direction states value own }
{
    let now = own % states;
    let before = own / states;
    match direction {
        Direction::Forward => (value + (states - before)) % states + states * now,
        Direction::Backward => before + states * ((value + (states - now)) % states),
    }
}
