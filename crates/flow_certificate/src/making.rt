ghost use Rattle.std.specs.Prelude.{◌≡◌, ◌&&◌, IfSome, IsSome, true};
ghost use Rattle.std.specs.List.{list_all};
ghost use Rattle.std.specs.Option.{is_some};
ghost use Rattle.flow_certificate.specs.Keeping.{is_node as is_known_node, is_number as is_known_number};
ghost use Rattle.flow_certificate.specs.Keeping.{is_region_or_outside};
ghost use Rattle.flow_certificate.specs.Pictures.{have_counts as have_their_counts, have_names, have_texts as have_their_texts};

use crate::certificates::Certificate;
use crate::line_reading::{LIMIT, is_number, is_place, is_region};
use crate::ranges::tell_graph;
use flow_graph::{Graph, Node};
use max_flow::Solved;

/// Whether a certificate can name each number.
fn are_numbers(numbers: &[u64]) -> bool
    ensures { result ≡ list_all is_known_number numbers.now }
{
    numbers.iter().all(|number| is_number(*number))
}

/// Whether a certificate can name a point and its capacity.
fn is_node(node: &Node) -> bool
    ensures { result ≡ is_known_node node.now }
{
    node.capacity < u128::from(LIMIT) && is_place(node.point)
}

/// Whether a certificate can name each point.
fn are_nodes(nodes: &[Node]) -> bool
    ensures { result ≡ list_all is_known_node nodes.now }
{
    nodes.iter().all(|node| is_node(node))
}

/// Whether numbers of 16 bits can be those of regions: all can.
fn are_regions(regions: &[u16]) -> bool
    ensures { result ≡ list_all is_region_or_outside regions.now }
{
    regions.iter().all(|region| is_region(*region))
}

/// Whether there is a number for each point and link, and an answer for each point and relay.
fn have_counts(graph: &Graph, solved: &Solved) -> bool
    ensures { result ≡ have_their_counts graph.now solved.now }
{
    graph.points.len() < 4_294_967_296
        && solved.flow.points.len() == graph.points.len()
        && solved.flow.links.len() == graph.links.len()
        && solved.side.points.len() == graph.points.len()
        && solved.side.relays.len() == graph.relays.len()
}

/// Whether a certificate can name all of them.
fn have_texts(graph: &Graph, solved: &Solved) -> bool
    ensures { result ≡ have_their_texts graph.now solved.now }
{
    is_number(solved.value)
        && are_nodes(graph.points.as_slice())
        && are_regions(graph.relays.as_slice())
        && are_numbers(solved.flow.points.as_slice())
        && are_numbers(solved.flow.links.as_slice())
}

impl Certificate {
    /// The certificate of a graph with a flow and a side; None exactly where they break what a certificate keeps. There
    /// is one where there is a number for each point and link and an answer for each point and relay, all numbers are
    /// below 2^48, and all slots are known.
    pub fn from_parts(graph: Graph, solved: Solved) -> Option<Certificate>
        ensures some { is_some result ≡ (have_their_counts graph solved && have_their_texts graph solved) }
        ensures named { (have_their_counts graph solved && have_names graph solved) ≡ true → IsSome result }
        ensures graph { IfSome result (λ certificate. certificate.graph ≡ graph) }
        ensures solved { IfSome result (λ certificate. certificate.solved ≡ solved) }
    {
        tell_graph(&graph);
        if !have_counts(&graph, &solved) || !have_texts(&graph, &solved) {
            return None;
        }
        Some(Certificate { graph, solved })
    }
}
