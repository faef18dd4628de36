// A run of a tower: the tower, how many cells its ring has, and how many steps it has gone.
ghost use Rattle.std.specs.Prelude.{◌≤◌, unsigned_abs};
ghost use Rattle.rings.specs.Limits.{max_cells};
ghost use Rattle.runs.specs.Limits.{max_steps};

#[derive(Drop)]
pub struct Run<T> {
    pub(crate) tower: T,
    pub(crate) cells: usize,
    pub(crate) steps: i32,
    ghost some: { 1 ≤ cells },
    ghost few: { cells ≤ max_cells },
    ghost near: { unsigned_abs steps ≤ max_steps },
}
