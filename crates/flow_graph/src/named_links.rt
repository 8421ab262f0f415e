use flow_base::Point;

/// An end of a link by its name, in the order of ends: the source, the points, the relays, the sink.
#[derive(Clone, Copy, PartialEq, Eq, PartialOrd, Ord, Hash)]
pub enum NamedEnd {
    /// The secret.
    Source,
    /// A point.
    At(Point),
    /// The relay of a region.
    Relay(u16),
    /// All that can be seen of the run.
    Sink,
}

/// A link by the names of its ends. Links are ordered by source, then target.
#[derive(Clone, Copy, PartialEq, Eq, PartialOrd, Ord, Hash)]
pub struct NamedLink {
    pub source: NamedEnd,
    pub target: NamedEnd,
}
