ghost use Rattle.std.specs.Prelude.{◌≡◌, true};
ghost use Rattle.std.specs.List.{list_all};
ghost use Rattle.flow_graph.specs.EventGraphs.{capacity_at};
ghost use Rattle.max_flow.specs.Flows.{is_small};

use flow_base::Point;
use flow_graph::Node;

/// The capacity of a point of a graph, in bits; 0 where the graph has no such point.
pub fn capacity_of(nodes: &[Node], point: Point) -> u64
    requires { list_all is_small nodes.now ≡ true }
    ensures { result ≡ capacity_at nodes.now point }
{
    let mut rest = nodes;
    while let [node, more @ ..] = rest {
        if point.is_same(node.point) {
            return node.capacity as u64;
        }
        rest = more;
    }
    0
}
