ghost use Rattle.std.specs.Prelude.{IsTrue, length};
ghost use Rattle.flow_graph.specs.Graphs.{are_points, are_relays, are_arcs, are_links};

use crate::ends::Arc;
use crate::nodes::Node;
use flow_base::List;

/// The graph of a list of events: points with their capacities, the relays of regions, and open links.
///
/// By its type each of the three lists is strictly ascending, in the order of points, numbers and links. Capacities are
/// positive. A link from the source leads to a point. `Source` stands only as a source and `Sink` only as a target.
/// Every point that a link names has an index below the number of points, and every relay that a link names stands in
/// `relays`.
#[derive(Drop)]
pub struct Graph {
    /// The points with their capacities.
    pub points: List<Node>,
    /// The numbers of the regions whose outputs what is implicit inside them flows to.
    pub relays: List<u16>,
    /// The links, of no capacity of their own.
    pub links: List<Arc>,
    ghost points_ascend: { IsTrue (are_points points) },
    ghost relays_ascend: { IsTrue (are_relays relays) },
    ghost links_ascend: { IsTrue (are_arcs links) },
    ghost links_are_valid: { IsTrue (are_links (length points) relays links) },
}
