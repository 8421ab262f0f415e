use flow_base::Point;
use flow_graph::Arc;
use max_flow::Half;

/// What the line of a point says: its capacity and flow, in bits, and which of its halves are in the side.
#[derive(Clone, Copy)]
pub struct PointLine {
    pub point: Point,
    pub capacity: u64,
    pub flow: u64,
    pub half: Half,
}

/// What the line of a relay says: whether it is in the side.
#[derive(Clone, Copy)]
pub struct RelayLine {
    pub region: u16,
    pub inside: bool,
}

/// What the line of a link says: its flow, in bits.
#[derive(Clone, Copy)]
pub struct LinkLine {
    pub link: Arc,
    pub flow: u64,
}

/// A line of the text of a certificate.
#[derive(Clone, Copy)]
pub enum Line {
    /// `flowcheck-graph 1`
    Version,
    /// `value N`
    Value(u64),
    /// `point REGION 0xADDRESS SLOT capacity N flow N side S`
    Point(PointLine),
    /// `relay REGION side S`
    Relay(RelayLine),
    /// `link FROM TO flow N`
    Link(LinkLine),
    /// `end`
    End,
}
