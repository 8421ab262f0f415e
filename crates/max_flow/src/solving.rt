ghost use Rattle.std.specs.Prelude.{◌≡◌, ◌≤◌, ◌+◌, ◌*◌, length, IfOk};
ghost use Rattle.max_flow.specs.Flows.{AreAtMost};
ghost use Rattle.max_flow.specs.Flows.{HasNoGreater, IsFlowOf, IsWithinLimits, Least, flow_value, side_capacity};
ghost use Rattle.max_flow.specs.Private.GraphNetworks.{network_of, relay_room};
ghost use Rattle.max_flow.specs.Private.Networks.{IsFlow, IsSide, source_flow, capacity_of};
ghost use Rattle.max_flow.specs.Private.Rooms.{IsLeast};
ghost use Rattle.max_flow.specs.Private.Searching.{is_found};

use crate::answers::Solved;
use crate::building::network;
use crate::raising::{Answer, solve_network};
use crate::sides::{flow_of, side_of};
use flow_base::NoMemory;
use flow_graph::Graph;
use std::alloc::Global;

/// A maximum flow of the network of a graph, and the nodes that the source still reaches.
fn answer_of(alloc: Global, graph: &Graph) -> Result<Answer, NoMemory>
    requires { IsWithinLimits graph.now }
    ensures count { IfOk result (λ answer. length answer.places.items
        ≡ 2 + 2 * length graph.now.points + relay_room graph.now.relays) }
    ensures few { IfOk result (λ answer. length answer.places.items ≤ 2 + 2 * length graph.now.points + 65536) }
    ensures flow { IfOk result (λ answer. IsFlow (network_of graph.now) answer.flows.items) }
    ensures value { IfOk result (λ answer. source_flow (network_of graph.now) answer.flows.items ≡ answer.value) }
    ensures most { IfOk result (λ answer. AreAtMost answer.value answer.flows.items) }
    ensures side { IfOk result (λ answer. IsSide (network_of graph.now) (is_found answer.places.items)) }
    ensures capacity { IfOk result (λ answer. capacity_of (network_of graph.now) (is_found answer.places.items) ≡
        answer.value) }
    ensures least { IfOk result (λ answer. IsLeast (network_of graph.now) answer.value
        (is_found answer.places.items)) }
{
    let network = network(alloc, graph)?;
    let answer = solve_network(alloc, &network)?;
    Ok(answer)
}

/// A maximum flow of a graph within the limits, its value, and the least minimum side, whose capacity is that value.
/// Nothing circulates: no more bits flow through any point or over any link than the value. Its error is want of
/// memory.
pub fn solve(alloc: Global, graph: &Graph) -> Result<Solved, NoMemory>
    requires { IsWithinLimits graph.now }
    ensures flow { IfOk result (λ solved. IsFlowOf graph.now solved.flow.points solved.flow.links) }
    ensures value { IfOk result (λ solved. flow_value graph.now solved.flow.points solved.flow.links ≡ solved.value) }
    ensures points { IfOk result (λ solved. AreAtMost solved.value solved.flow.points) }
    ensures links { IfOk result (λ solved. AreAtMost solved.value solved.flow.links) }
    ensures side { IfOk result (λ solved. Least graph.now solved.side.points solved.side.relays) }
    ensures capacity { IfOk result (λ solved. side_capacity graph.now solved.side.points solved.side.relays ≡
        solved.value) }
    ensures greatest { IfOk result (λ solved. HasNoGreater graph.now solved.value) }
{
    let Answer {
        value,
        flows,
        places,
    } = answer_of(alloc, graph)?;
    let flow = flow_of(graph, flows)?;
    let side = side_of(alloc, graph, &places)?;
    Ok(Solved { value, flow, side })
}
