use crate::patterns::Pattern;
use crate::stops::PathStop;
use crate::whys::UnclearWhy;
use crossing_bits::Bits;
use flow_base::List;

/// A path that stops.
#[derive(Drop)]
pub struct StoppedPath {
    /// Its choices, in order.
    pub bits: Bits,
    /// Why it stops.
    pub stop: PathStop,
}

/// What all paths show, none of which is unclear.
#[derive(Drop)]
pub struct Bounded {
    /// How many paths there are, walked or not; None where these are 2^64 or more.
    pub paths: Option<u64>,
    /// How many of them stop; None where these are 2^64 or more.
    pub stopped: Option<u64>,
    /// The different patterns, in the order in which they were first found.
    pub patterns: List<Pattern>,
    /// The first path that stops, if one does.
    pub first_stop: Option<StoppedPath>,
}

/// The answer for all secrets.
#[derive(Drop)]
pub enum BoundVerdict {
    /// No path is unclear.
    Bounded(Bounded),
    /// The first path that is unclear: its choices up to where it is unclear, and why.
    Unclear { path: Bits, why: UnclearWhy },
    /// As many walks were made as may be, and a path is left; there are more paths than that. The string is that of the
    /// last walk.
    TooMany { path: Bits, limit: u32 },
}
