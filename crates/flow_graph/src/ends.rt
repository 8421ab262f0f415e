/// An end of a link, in the order of ends: the source, the points, the relays, the sink.
#[derive(Clone, Copy, Debug, PartialEq, Eq, PartialOrd, Ord)]
pub enum End {
    /// The secret.
    Source,
    /// The point with this index among the graph's points. A link into a point enters its first half, and a link from
    /// it leaves its second half.
    Point(u32),
    /// The relay of this region.
    Relay(u16),
    /// All that can be seen of the run.
    Sink,
}

/// An open link, which means without a bound. Links are ordered by source, then target.
#[derive(Clone, Copy, PartialEq, Eq, PartialOrd, Ord)]
pub struct Arc {
    pub source: End,
    pub target: End,
}
