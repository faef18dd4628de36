// Towers: what every tower answers, and encoding and decoding by any tower.
#![tactic(auto)]

ghost use Rattle.std.specs.Prelude.{◌≡◌};
ghost use Rattle.towers.specs.Towers.{Tower as Meaning};
ghost use Rattle.towers.specs.Numbers.{numbers_of, Standing};
ghost use Rattle.towers.specs.Places.{place_answer};

use rules::Rule;

mod encoding;
mod fault;
mod ground;
mod numbers;

pub use encoding::{decode, decode_rotated, encode};
pub use fault::TowerFault;
pub use ground::Ground;
pub use numbers::Numbers;

// Where a bottom cell stands: in which top cell, and as which digit of its code in the base of the bottom's states.
#[derive(Clone, Copy, PartialEq, Eq, Debug)]
pub struct Place {
    pub cell: usize,
    pub digit: usize,
}

// A tower: a rule, its top, over a bottom rule, by an encoding of bottom rings as top rings. Its meaning keeps the laws of a tower,
// and its top is what it means as a rule; no question changes it.
pub trait Tower: Rule {
    ghost tower: { Self → Meaning };

    // All numbers of the tower, in one question.
    fn numbers(&self) -> Numbers
        ensures answer { result ≡ numbers_of (tower self.now) };

    // Where the cell j of a bottom ring of n cells stands in the encoded ring.
    fn place(&self, n: usize, j: usize) -> Result<Place, TowerFault>
        ensures answer { result ≡ place_answer (tower self.now) n j };

    ghost stands: { (x : Self) → Standing (tower x) };

    ghost is_top: { (x : Self) → Self.meaning x ≡ (tower x).top };
}
