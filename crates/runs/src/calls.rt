// The calls on a run.
ghost use Rattle.std.specs.Prelude.{◌≡◌, ℕ, ◌≤◌, List, length, ℤ, ◌+ℤ◌, ◌*ℤ◌, neg_ℤ, Some, None, MatchResult};
ghost use Rattle.rings.specs.declared.Direction.TheVariants.{Forward, Backward};
ghost use Rattle.rings.specs.Automaton.{after, toward_steps};
ghost use Rattle.rings.specs.Refusals.{outcome};
ghost use Rattle.runs.specs.declared.Call.TheVariants.{Advance, Back};
ghost use Rattle.runs.specs.States.{held, holder, moved};
ghost use Rattle.runs.specs.Calls.{is_too_far, move_fault, tried, read_fault, read_buffer, present_fault};
ghost use Rattle.runs.specs.Laws.{Apart, MoveLaw, ReadLaw, Shows};
ghost use Rattle.runs.specs.Views.{state_of, InState, told_of, Begins, Makes};

use crate::{Holder, Run, RunFault, Told};
use rings::{Direction, Refused};
use rules::{RuleFault, check_codes, map_ring};
use towers::{Tower, decode_rotated, encode};

// The most steps that one call makes.
const MAX_COUNT: u32 = 65_536;

// The most steps that a run goes, either way.
const MAX_STEPS: u64 = 1_000_000_000;

// The steps that a call asks for: this many, in a direction.
#[derive(Clone, Copy)]
struct Steps {
    direction: Direction,
    count: u32,
}

impl Steps {
    // How many they are, those back below 0.
    fn signed(self) -> i64
        ensures { result ≡ toward_steps self.direction self.count }
    {
        let count = i64::from(self.count);
        match self.direction {
            Direction::Forward => count,
            Direction::Backward => -count,
        }
    }
}

// The caller keeps the two buffers and gives them to each call, the form that users ask for; so each call but `tell` takes both.
impl<T: Tower> Run<T> {
    // A run of a tower from a bottom ring, with the encoded ring in buffer A.
    pub fn make(
        tower: T,
        ring: &[u32],
        a: &mut [u32],
        b: &[u32],
    ) -> Result<Run<T>, Refused<T, RunFault>>
        ensures answer { Makes (T.Tower.tower tower) tower ring.now a.old b.now result a.new }
        ensures apart { Apart (T.Tower.tower tower) }
    {
        let room = a.len().min(b.len());
        Run::begin(tower, ring, room, a)
    }

    // This many steps of the top.
    pub fn advance(&mut self, count: u32, a: &mut [u32], b: &mut [u32]) -> Result<(), RunFault>
        ensures answer { result ≡ outcome (move_fault Forward (T.Tower.tower self.old.tower).top count (state_of self.old a.old b.old)) }
        ensures state { InState self.new a.new b.new self.old.tower (tried Forward (T.Tower.tower self.old.tower).top count (state_of self.old a.old b.old)) }
        ensures law { MoveLaw (T.Tower.tower self.old.tower) (Advance count) (state_of self.old a.old b.old) (state_of self.new a.new b.new) result }
    {
        let direction = Direction::Forward;
        self.travel(Steps { direction, count }, a, b)
    }

    // This many steps of the top's inverse.
    pub fn back(&mut self, count: u32, a: &mut [u32], b: &mut [u32]) -> Result<(), RunFault>
        ensures answer { result ≡ outcome (move_fault Backward (T.Tower.tower self.old.tower).top count (state_of self.old a.old b.old)) }
        ensures state { InState self.new a.new b.new self.old.tower (tried Backward (T.Tower.tower self.old.tower).top count (state_of self.old a.old b.old)) }
        ensures law { MoveLaw (T.Tower.tower self.old.tower) (Back count) (state_of self.old a.old b.old) (state_of self.new a.new b.new) result }
    {
        let direction = Direction::Backward;
        self.travel(Steps { direction, count }, a, b)
    }

    // The ring that the run holds, where it lies.
    pub fn present<'b>(&self, a: &'b [u32], b: &'b [u32]) -> Result<&'b [u32], RunFault>
        ensures answer { MatchResult result (λ ring. (present_fault (state_of self.now a.now b.now) ≡ None) × (ring.now ≡ held (state_of self.now a.now b.now))) (λ e. present_fault (state_of self.now a.now b.now) ≡ Some e) }
        ensures law { (c : List ℕ) (k : ℤ) → Shows (T.Tower.tower self.now.tower) c k (state_of self.now a.now b.now) → MatchResult result (λ ring. ring.now ≡ after (T.Tower.tower self.now.tower).top k ((T.Tower.tower self.now.tower).encode c)) (λ e. ⊥) }
    {
        if a.len() < self.cells || b.len() < self.cells {
            return Err(RuleFault::ShortBuffer.into());
        }
        let holding = match self.holder() {
            Holder::A => a,
            Holder::B => b,
        };
        Ok(&holding[..self.cells])
    }

    // Writes the bottom ring that the run has reached, into the first cells of a third buffer.
    pub fn read(&self, a: &[u32], b: &[u32], third: &mut [u32]) -> Result<(), RunFault>
        ensures answer { result ≡ outcome (read_fault (T.Tower.tower self.now.tower) (state_of self.now a.now b.now) (length third.old)) }
        ensures buffer { third.new ≡ read_buffer (T.Tower.tower self.now.tower) (state_of self.now a.now b.now) third.old }
        ensures law { ReadLaw (T.Tower.tower self.now.tower) (state_of self.now a.now b.now) third.old third.new result }
    {
        let ring = self.present(a, b)?;
        let numbers = self.tower.numbers();
        if third.len() / (numbers.block as usize) < self.cells {
            return Err(RuleFault::ShortBuffer.into());
        }
        let rotation = turn_back(numbers.drift, self.steps);
        decode_rotated(&self.tower, ring, rotation, third)?;
        Ok(())
    }

    // How many cells the ring has, how many steps the run has gone, and which buffer holds the ring.
    pub fn tell(&self) -> Told
        ensures answer { result ≡ told_of self.now }
        ensures law { (c : List ℕ) (k : ℤ) (a b : List ℕ) → Shows (T.Tower.tower self.now.tower) c k (state_of self.now a b) → result.steps ≡ k }
    {
        Told {
            cells: self.cells,
            steps: self.steps,
            holder: self.holder(),
        }
    }

    // A run from a bottom ring, with the encoded ring in the first cells of a buffer of which `room` cells may be used.
    pub(crate) fn begin(
        tower: T,
        ring: &[u32],
        room: usize,
        a: &mut [u32],
    ) -> Result<Run<T>, Refused<T, RunFault>>
        requires { room ≤ length a.old }
        ensures { Begins (T.Tower.tower tower) tower ring.now room a.old result a.new }
    {
        if let Err(fault) = encode(&tower, ring, &mut a[..room]) {
            return Err(Refused {
                fault: fault.into(),
                given: tower,
            });
        }
        let cells = ring.len() / tower.numbers().block as usize;
        Ok(Run {
            tower,
            cells,
            steps: 0,
        })
    }

    // Which buffer holds the ring.
    fn holder(&self) -> Holder
        ensures { result ≡ holder self.now.steps }
    {
        if self.steps % 2 == 0 {
            Holder::A
        } else {
            Holder::B
        }
    }

    // The count of steps after these.
    fn steps_after(&self, steps: Steps) -> i64
        ensures { result ≡ self.now.steps +ℤ toward_steps steps.direction steps.count }
    {
        i64::from(self.steps) + steps.signed()
    }

    // More steps than one call makes, or steps that lead past the limit.
    fn is_too_far(&self, steps: Steps) -> bool
        ensures { result ≡ is_too_far steps.direction self.now.steps steps.count }
    {
        steps.count > MAX_COUNT || self.steps_after(steps).unsigned_abs() > MAX_STEPS
    }

    // Refuses steps that the run does not make.
    fn check_move(&self, steps: Steps, a: &[u32], b: &[u32]) -> Result<(), RunFault>
        ensures { result ≡ outcome (move_fault steps.direction (T.Tower.tower self.now.tower).top steps.count (state_of self.now a.now b.now)) }
    {
        // every tower goes forward, and a question has it work out all its numbers
        if steps.direction == Direction::Backward {
            self.tower.inverse().ok_or(RuleFault::NoInverse)?;
        }
        let ring = self.present(a, b)?;
        if self.is_too_far(steps) {
            return Err(RunFault::TooFar);
        }
        check_codes(ring, self.tower.numbers().states)?;
        Ok(())
    }

    // One step that is not refused, from the buffer that holds the ring into the other.
    fn step(&mut self, direction: Direction, a: &mut [u32], b: &mut [u32])
        requires { move_fault direction (T.Tower.tower self.old.tower).top 1 (state_of self.old a.old b.old) ≡ None }
        ensures { InState self.new a.new b.new self.old.tower (moved direction (T.Tower.tower self.old.tower).top 1 (state_of self.old a.old b.old)) }
    {
        // each arm has its call: of a pair of written buffers that a `match` or a `swap` chooses, a proof knows nothing
        match self.holder() {
            Holder::A => map_ring(&self.tower, direction, &a[..self.cells], b),
            Holder::B => map_ring(&self.tower, direction, &b[..self.cells], a),
        }
        .unwrap();
        let one = Steps {
            direction,
            count: 1,
        };
        self.steps = self.steps_after(one) as i32;
    }

    // Steps in a direction.
    fn travel(&mut self, steps: Steps, a: &mut [u32], b: &mut [u32]) -> Result<(), RunFault>
        ensures answer { result ≡ outcome (move_fault steps.direction (T.Tower.tower self.old.tower).top steps.count (state_of self.old a.old b.old)) }
        ensures state { InState self.new a.new b.new self.old.tower (tried steps.direction (T.Tower.tower self.old.tower).top steps.count (state_of self.old a.old b.old)) }
    {
        self.check_move(steps, a, b)?;
        for _ in 0..steps.count {
            self.step(steps.direction, a, b);
        }
        Ok(())
    }
}

// By how many cells a reading is turned back after so many steps.
fn turn_back(drift: i32, steps: i32) -> i64
    ensures { result ≡ neg_ℤ (drift *ℤ steps) }
{
    -(i64::from(drift) * i64::from(steps))
}
