use flow_base::List;

/// Which halves of a point are in a side.
#[derive(Clone, Copy)]
pub enum Half {
    /// Both halves.
    Both,
    /// The first half alone: the point is cut.
    FirstOnly,
    /// The second half alone.
    SecondOnly,
    /// Neither half.
    Neither,
}

/// A flow: how many bits flow through each point and over each link, in the graph's order.
#[derive(Drop)]
pub struct Flow {
    /// The bits through each point.
    pub points: List<u64>,
    /// The bits over each link.
    pub links: List<u64>,
}

/// A side: which halves of each point are in it, and whether each relay is, in the graph's order.
#[derive(Drop)]
pub struct Side {
    /// The halves of each point that are in the side.
    pub points: List<Half>,
    /// Whether each relay is in the side.
    pub relays: List<bool>,
}

/// A maximum flow of a graph, its value, and the least minimum side.
#[derive(Drop)]
pub struct Solved {
    /// The value, in bits.
    pub value: u64,
    /// The flow of that value.
    pub flow: Flow,
    /// The side of that capacity.
    pub side: Side,
}
