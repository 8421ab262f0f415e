ghost use Rattle.std.specs.Prelude.{◌≡◌, ◌^◌, ◌<◌, IsTrue, length};
ghost use Rattle.std.specs.List.{list_all};
ghost use Rattle.flow_certificate.specs.Keeping.{is_node, is_number, is_region_or_outside};

use flow_graph::Graph;
use max_flow::Solved;

/// A graph with what is said to be its maximum flow and its least minimum side.
///
/// By its type the flow has a number for each point and for each link, and the side an answer for each point and for
/// each relay. All numbers are below 2^48, the slot of each point is one, and there are fewer than 2^32 points.
#[derive(Drop)]
pub struct Certificate {
    pub graph: Graph,
    pub solved: Solved,
    ghost has_few_points: { length graph.points < 2 ^ 32 },
    ghost point_flows: { length solved.flow.points ≡ length graph.points },
    ghost link_flows: { length solved.flow.links ≡ length graph.links },
    ghost halves: { length solved.side.points ≡ length graph.points },
    ghost relay_answers: { length solved.side.relays ≡ length graph.relays },
    ghost value_is_number: { IsTrue (is_number solved.value) },
    ghost nodes_are_named: { IsTrue (list_all is_node graph.points) },
    ghost relays_are_regions: { IsTrue (list_all is_region_or_outside graph.relays) },
    ghost point_flows_are_numbers: { IsTrue (list_all is_number solved.flow.points) },
    ghost link_flows_are_numbers: { IsTrue (list_all is_number solved.flow.links) },
}
