// Rings and numbers as text, and the telling of what came out right.
use comparisons::Totals;
use std::fmt;
use towers::Numbers;

// A ring, written as its codes with a blank between.
#[derive(PartialEq, Drop)]
pub(crate) struct Cells<'a>(pub(crate) &'a [u32]);

impl<'a> fmt::Display for Cells<'a> {
    fn fmt<W: fmt::Write>(&self, f: &mut fmt::Formatter<W>) -> fmt::Result {
        for (i, code) in self.0.iter().enumerate() {
            if i > 0 {
                f.write_str(" ")?;
            }
            write!(f, "{code}")?;
        }
        Ok(())
    }
}

// The numbers of a tower, written as a line for each.
#[derive(Drop)]
pub(crate) struct NumberLines(pub(crate) Numbers);

impl fmt::Display for NumberLines {
    fn fmt<W: fmt::Write>(&self, f: &mut fmt::Formatter<W>) -> fmt::Result {
        let Numbers {
            states,
            lo,
            hi,
            block,
            steps,
            drift,
            mirrored,
            ..
        } = self.0;
        writeln!(f, "  states of a top cell (q): {states}")?;
        writeln!(f, "  cells that a top step reads (lo to hi): {lo} to {hi}")?;
        writeln!(f, "  bottom cells in a top cell (M): {block}")?;
        writeln!(f, "  bottom steps in a top step (T): {steps}")?;
        writeln!(
            f,
            "  bottom cells that a top step turns the ring by (S): {drift}"
        )?;
        writeln!(f, "  the top ring runs the other way round (v): {mirrored}")
    }
}

// How a top step lies on the bottom ring: by how many cells it turns, and whether it runs the other way round.
#[derive(Clone, Copy, PartialEq, Eq)]
pub(crate) struct Turn {
    pub(crate) drift: i32,
    pub(crate) mirrored: bool,
}

impl fmt::Display for Turn {
    fn fmt<W: fmt::Write>(&self, f: &mut fmt::Formatter<W>) -> fmt::Result {
        let Turn { drift, mirrored } = self;
        write!(f, "{drift} {mirrored}")
    }
}

// What is printed, and how many of its comparisons came out right.
#[derive(Drop)]
pub(crate) struct Report<'a> {
    pub(crate) rt: &'a HostRuntime,
    pub(crate) totals: Totals,
}

impl<'a> Report<'a> {
    // A report with nothing compared.
    pub(crate) fn new(rt: &'a HostRuntime) -> Report<'a> {
        Report {
            rt,
            totals: Totals::default(),
        }
    }

    // Counts a comparison, and says in a word how it came out.
    pub(crate) fn count(&mut self, same: bool) -> &'static str {
        self.totals.count(same);
        if same { "the same" } else { "DIFFERENT" }
    }

    // Writes what was computed beside what is expected, and counts the comparison.
    pub(crate) fn compare<T: PartialEq + fmt::Display + Drop>(
        &mut self,
        what: impl fmt::Display + Drop,
        computed: T,
        expected: T,
    ) -> anyhow::Result<()> {
        let word = self.count(computed == expected);
        println!(self.rt; "  {what}: {computed}, expected {expected}, {word}")?;
        Ok(())
    }

    // The same for two rings.
    pub(crate) fn compare_rings(
        &mut self,
        what: &str,
        computed: &[u32],
        expected: &[u32],
    ) -> anyhow::Result<()> {
        self.compare(what, Cells(computed), Cells(expected))
    }
}
