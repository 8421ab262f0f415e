ghost use Rattle.std.specs.Prelude.{◌≡◌, ◌+◌, ◌*◌, ◌^◌, ◌<◌, ◌≤◌, ◌++◌, map, length, IfOk, OnOk, IsTrue};
ghost use Rattle.std.specs.List.{list_all};
ghost use Rattle.max_flow.specs.Flows.{IsWithinLimits, is_small};
ghost use Rattle.max_flow.specs.Private.GraphNetworks.{halves_from, network_of, relay_room, small_network_of};
ghost use Rattle.max_flow.specs.Building.{head_of, tail_of};
ghost use Rattle.max_flow.specs.Private.Rooms.{AreFew};
ghost use Rattle.max_flow.specs.Private.Solving.{net_of, IsNetwork};

use crate::chains::chains_of;
use crate::networks::Network;
use flow_base::{List, NoMemory};
use flow_graph::{Arc, End, Graph, Node};
use std::alloc::Global;

/// The number of the node that a link leaves, where there are `count` points.
pub fn tail_number(count: usize, end: End) -> usize
    requires { count < 2 ^ 32 }
    ensures { result ≡ tail_of count end }
{
    match end {
        End::Source => 0,
        End::Point(index) => 3 + 2 * index as usize,
        End::Relay(region) => 2 + 2 * count + region as usize,
        End::Sink => 1,
    }
}

/// The number of the node that a link enters, where there are `count` points.
pub fn head_number(count: usize, end: End) -> usize
    requires { count < 2 ^ 32 }
    ensures { result ≡ head_of count end }
{
    match end {
        End::Source => 0,
        End::Point(index) => 2 + 2 * index as usize,
        End::Relay(region) => 2 + 2 * count + region as usize,
        End::Sink => 1,
    }
}

/// The first halves of the points, or the second ones, by where they begin, in a list with room for so many nodes.
fn halves(alloc: Global, start: usize, count: usize, room: usize) -> Result<List<u32>, NoMemory>
    requires start { start ≤ 3 }
    requires count { count ≤ 65536 }
    ensures { IfOk result (λ numbers. numbers ≡ halves_from start count) }
{
    let mut numbers = List::from_vec(Vec::with_capacity(alloc, room)?);
    for i in 0..count {
        numbers.push((start + 2 * i) as u32)?;
    }
    Ok(numbers)
}

/// The nodes at both ends of edges.
#[derive(Drop)]
struct Ends {
    /// The nodes that they leave.
    tails: List<u32>,
    /// The nodes that they enter.
    heads: List<u32>,
}

/// Puts the nodes at the ends of the links at the end.
fn push_ends(ends: &mut Ends, count: usize, links: &[Arc]) -> Result<(), NoMemory>
    requires count { count ≤ 65536 }
    requires tails { AreFew (map (λ link. tail_of count link.source) links.now) }
    requires heads { AreFew (map (λ link. head_of count link.target) links.now) }
    ensures tails { OnOk result (ends.new.tails ≡ ends.old.tails ++ map (λ link. tail_of count link.source) links.now) }
    ensures heads { OnOk result (ends.new.heads ≡ ends.old.heads ++ map (λ link. head_of count link.target) links.now) }
{
    for link in links {
        ends.tails.push(tail_number(count, link.source) as u32)?;
        ends.heads.push(head_number(count, link.target) as u32)?;
    }
    Ok(())
}

/// The nodes at the ends of the edges of a graph.
fn ends_of(alloc: Global, graph: &Graph) -> Result<Ends, NoMemory>
    requires { IsWithinLimits graph.now }
    ensures tails { IfOk result (λ ends. ends.tails ≡ (network_of graph.now).tails) }
    ensures heads { IfOk result (λ ends. ends.heads ≡ (network_of graph.now).heads) }
{
    let count = graph.points.len();
    let room = count + graph.links.len();
    let tails = halves(alloc, 2, count, room)?;
    let heads = halves(alloc, 3, count, room)?;
    let mut ends = Ends { tails, heads };
    push_ends(&mut ends, count, graph.links.as_slice())?;
    Ok(ends)
}

/// The capacities of the points.
fn limits_of(alloc: Global, points: &[Node]) -> Result<List<u64>, NoMemory>
    requires { IsTrue (list_all is_small points.now) }
    ensures { IfOk result (λ limits. limits ≡ map (λ node. node.capacity) points.now) }
{
    let mut limits = List::from_vec(Vec::with_capacity(alloc, points.len())?);
    let mut rest = points;
    while let [node, more @ ..] = rest {
        limits.push(node.capacity as u64)?;
        rest = more;
    }
    Ok(limits)
}

/// One more than the highest relay; 0 where there is none.
fn relays_room(relays: &[u16]) -> usize
    ensures room { result ≡ relay_room relays.now }
    ensures few { result ≤ 65536 }
{
    let mut room = 0;
    let mut rest = relays;
    while let [region, more @ ..] = rest {
        room = (*region as usize + 1).max(room);
        rest = more;
    }
    room
}

/// The number of nodes of a graph, up to the highest relay.
fn node_count(graph: &Graph) -> usize
    requires { length graph.now.points ≤ 65536 }
    ensures count { result ≡ 2 + 2 * length graph.now.points + relay_room graph.now.relays }
    ensures few { result ≤ 2 + 2 * length graph.now.points + 65536 }
{
    2 + 2 * graph.points.len() + relays_room(graph.relays.as_slice())
}

/// The network of a graph, whose nodes end with the highest relay: a graph of few relays has few nodes.
pub fn network(alloc: Global, graph: &Graph) -> Result<Network, NoMemory>
    requires { IsWithinLimits graph.now }
    ensures net { IfOk result (λ network. net_of network ≡ small_network_of graph.now) }
    ensures network { IfOk result (λ network. IsNetwork network) }
    ensures few { IfOk result (λ network. network.nodes ≤ 2 + 2 * length graph.now.points + 65536) }
{
    let nodes = node_count(graph);
    let limits = limits_of(alloc, graph.points.as_slice())?;
    let ends = ends_of(alloc, graph)?;
    let leaving = chains_of(alloc, ends.tails.as_slice(), nodes)?;
    let entering = chains_of(alloc, ends.heads.as_slice(), nodes)?;
    Ok(Network {
        nodes,
        tails: ends.tails.into_vec(),
        heads: ends.heads.into_vec(),
        limits: limits.into_vec(),
        leaving,
        entering,
    })
}
