// The numbers of a tower.

// What a tower tells: the states, the interval and the inverse's interval of its top, the bottom cells in a top cell (M), the bottom
// steps in a top step (T), by how many bottom cells a top step turns the ring (S), whether the top is mirrored (v), and the states of
// its bottom. The states and the ends stand one by one and not as a shape: an action changes some of them, and would take a shape apart.
#[derive(Clone, Copy, PartialEq, Eq, Debug)]
pub struct Numbers {
    pub states: u32,
    pub lo: i32,
    pub hi: i32,
    pub inverse: Option<(i32, i32)>,
    pub block: u32,
    pub steps: u32,
    pub drift: i32,
    pub mirrored: bool,
    pub bottom: u32,
}
