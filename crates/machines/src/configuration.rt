// A configuration of a Turing machine.

// A circular tape of symbols, with one head: its position and its state.
#[derive(Clone, Copy, PartialEq, Eq, Debug)]
pub struct Configuration<'a> {
    pub tape: &'a [u32],
    pub position: usize,
    pub state: u32,
}
