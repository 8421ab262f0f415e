use flow_base::{List, Point};

/// A mask that is the same for a number of visits. In a cut the number is 1 or more.
#[derive(Clone, Copy)]
pub struct Run {
    /// The number of visits.
    pub count: u32,
    /// The bits that cross at each of them.
    pub mask: u32,
}

/// A point at which bits cross, with a mask for each visit: those of the runs in order, and then those of `rest`
/// over and over.
#[derive(Drop)]
pub struct CutPoint {
    /// The place of the values.
    pub point: Point,
    /// The masks of the first visits.
    pub runs: List<Run>,
    /// The masks of the later visits, as a pattern that repeats.
    pub rest: List<Run>,
}
