use flow_base::Point;

/// A point of a graph and its capacity, in bits: how many may flow from its first half to its second.
#[derive(Clone, Copy)]
pub struct Node {
    pub point: Point,
    pub capacity: u128,
}
