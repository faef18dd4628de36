// How comparisons came out, counted.
#![tactic(auto)]

ghost use Rattle.std.specs.Prelude.{◌≡◌, ◌==◌};
ghost use Rattle.comparisons.specs.Totals.{counted, sum_of};

// How many comparisons came out the same, and how many did not. Each number stays at the greatest that it can be.
#[derive(Clone, Copy, PartialEq, Eq, Debug, Default)]
pub struct Totals {
    pub same: u32,
    pub different: u32,
}

impl Totals {
    // Counts a comparison.
    pub fn count(&mut self, same: bool)
        ensures { self.new ≡ counted same self.old }
    {
        if same {
            self.same = self.same.saturating_add(1);
        } else {
            self.different = self.different.saturating_add(1);
        }
    }

    // How many comparisons there were.
    pub fn sum(self) -> u32
        ensures { result ≡ sum_of self }
    {
        self.same.saturating_add(self.different)
    }

    // Whether none came out different.
    pub fn all_same(self) -> bool
        ensures { result ≡ (self.different == 0) }
    {
        self.different == 0
    }
}
