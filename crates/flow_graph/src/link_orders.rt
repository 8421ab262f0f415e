ghost use Rattle.flow_graph.specs.LinkOrders.{AreArcsOrderedByEnds, AreOrderedByEnds};

/// Links are ordered by source, then target: the source, the points, the relays by region, the sink. Points are ordered
/// as points are by name, and in a graph by index. It does nothing when it is called.
pub fn links_are_ordered()
    ensures named { AreOrderedByEnds }
    ensures arcs { AreArcsOrderedByEnds }
{}
