/// Why an event is not taken.
#[derive(Clone, Copy)]
pub enum CollapseFault {
    /// The graph of the events with this one would have more than 65,536 points, more than 1,048,576 links or a capacity
    /// of 2^48 bits or more, or an earlier event was not taken for that.
    Limit,
    /// There is not enough memory.
    Memory,
}
