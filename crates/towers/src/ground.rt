// A tower without floors.
ghost use Rattle.std.specs.Prelude.{◌≡◌, refl};
ghost use Rattle.towers.specs.Towers.{ground};
ghost use Rattle.towers.specs.Kinds.{ground_kind};
ghost use Rattle.towers.specs.Standing.{ground_standing};
ghost use Rattle.std.proofs.Common.{rules};

use crate::{Numbers, Place, Tower, TowerFault};
use rules::{Rule, RuleFault, Shape};

// A rule as a tower: the top is the bottom, and a ring encodes itself.
#[derive(Drop)]
pub struct Ground<R> {
    rule: R,
}

impl<R: Rule> Ground<R> {
    pub fn over(rule: R) -> Ground<R>
        ensures answer { result.rule ≡ rule }
    {
        Ground { rule }
    }
}

impl<R: Rule> Rule for Ground<R> {
    const KIND: u16 = 0x0001;

    ghost KIND = { ground_kind };

    ghost meaning = { λ x. R.Rule.meaning x.rule };

    ghost lawful = { Prim.search rules };

    fn shape(&self) -> Shape {
        self.rule.shape()
    }

    fn inverse(&self) -> Option<(i32, i32)> {
        self.rule.inverse()
    }

    fn next(&self, window: &[u32]) -> Result<u32, RuleFault> {
        self.rule.next(window)
    }

    fn previous(&self, window: &[u32]) -> Result<u32, RuleFault> {
        self.rule.previous(window)
    }
}

impl<R: Rule> Tower for Ground<R> {
    ghost tower = { λ x. ground (R.Rule.meaning x.rule) };

    ghost stands = { λ x. ground_standing _ (R.Rule.lawful x.rule) };

    ghost is_top = { λ x. refl };

    fn numbers(&self) -> Numbers {
        let Shape { states, lo, hi } = self.rule.shape();
        Numbers {
            states,
            lo,
            hi,
            inverse: self.rule.inverse(),
            block: 1,
            steps: 1,
            drift: 0,
            mirrored: false,
            bottom: states,
        }
    }

    fn place(&self, n: usize, j: usize) -> Result<Place, TowerFault> {
        if n == 0 {
            return Err(TowerFault::Rule(RuleFault::EmptyRing));
        }
        if j >= n {
            return Err(TowerFault::Rule(RuleFault::OutOfRange));
        }
        Ok(Place { cell: j, digit: 0 })
    }
}
