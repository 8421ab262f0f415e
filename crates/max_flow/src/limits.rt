ghost use Rattle.std.specs.Prelude.{◌≡◌, true, IsTrue};
ghost use Rattle.std.specs.List.{list_all};
ghost use Rattle.max_flow.specs.Flows.{IsWithinLimits, is_small};

use flow_graph::{Graph, Node};

/// Whether each capacity is below 2^48.
fn are_small(points: &[Node]) -> bool
    ensures { result ≡ list_all is_small points.now }
{
    points
        .iter()
        .all(|node| node.capacity < 281_474_976_710_656)
}

/// Whether a graph has at most 65,536 points, at most 1,048,576 links, and capacities below 2^48.
pub fn is_within_limits(graph: &Graph) -> bool
    ensures yes { result ≡ true → IsWithinLimits graph.now }
    ensures no { IsWithinLimits graph.now → result ≡ true }
{
    graph.points.len() <= 65_536
        && graph.links.len() <= 1_048_576
        && are_small(graph.points.as_slice())
}
