// A rule that acts as one of two.
ghost use Rattle.std.specs.Prelude.{◌≡◌};
ghost use Rattle.combinators.specs.Choices.{chosen, ChoiceLaws};
ghost use Rattle.combinators.specs.Kinds.{choice_kind};
ghost use Rattle.std.proofs.Common.{rules};

use rules::{Rule, RuleFault, Shape};

// Two rules and a number: it acts as the first rule if the number is 0, else as the second.
#[derive(Drop)]
pub struct Choice<A, B> {
    first: A,
    second: B,
    number: u32,
}

impl<A: Rule, B: Rule> Choice<A, B> {
    // A choice that goes by the number.
    pub fn new(first: A, second: B, number: u32) -> Choice<A, B>
        ensures answer { (result.first ≡ first) × (result.second ≡ second) × (result.number ≡ number) }
        ensures law { ChoiceLaws number (A.Rule.meaning first) (B.Rule.meaning second) }
    {
        Choice {
            first,
            second,
            number,
        }
    }
}

// Each method tests the number: the rules differ in type, so a shared test would take a closure for each of them.
impl<A: Rule, B: Rule> Rule for Choice<A, B> {
    const KIND: u16 = 0x0000;

    ghost KIND = { choice_kind };

    ghost meaning = { λ c. chosen c.number (A.Rule.meaning c.first) (B.Rule.meaning c.second) };

    ghost lawful = { Prim.search rules };

    fn shape(&self) -> Shape {
        if self.number == 0 {
            self.first.shape()
        } else {
            self.second.shape()
        }
    }

    fn inverse(&self) -> Option<(i32, i32)> {
        if self.number == 0 {
            self.first.inverse()
        } else {
            self.second.inverse()
        }
    }

    fn next(&self, window: &[u32]) -> Result<u32, RuleFault> {
        if self.number == 0 {
            self.first.next(window)
        } else {
            self.second.next(window)
        }
    }

    fn previous(&self, window: &[u32]) -> Result<u32, RuleFault> {
        if self.number == 0 {
            self.first.previous(window)
        } else {
            self.second.previous(window)
        }
    }
}
