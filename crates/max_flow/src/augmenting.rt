ghost use Rattle.std.specs.Prelude.{◌≡◌, ◌+◌, ◌<◌, ◌≤◌, length, slice_index, slice_set};
ghost use Rattle.max_flow.specs.Private.Balances.{IsFlowOfValue};
ghost use Rattle.max_flow.specs.Private.Networks.{source_flow};
ghost use Rattle.max_flow.specs.Private.Rooms.{IsBounded, bound, other_end, pushed, room_into};
ghost use Rattle.max_flow.specs.Private.Solving.{net_of, IsNetwork, IsTree};

use crate::networks::Network;
use crate::searching::Tree;

/// Brings an amount more to a node over an edge. Gives the edge's other end.
fn push(network: &Network, flows: &mut [u64], at: usize, edge: usize, amount: u64) -> usize
    requires network { IsNetwork network.now }
    requires inside { edge < length network.now.tails.items }
    requires bounded { IsBounded (net_of network.now) flows.old }
    requires room { amount ≤ room_into (net_of network.now) flows.old edge at }
    ensures flows { flows.new ≡ slice_set flows.old edge (pushed (net_of network.now) flows.old edge at amount) }
    ensures end { result ≡ other_end (net_of network.now) edge at }
{
    if network.head(edge) == at {
        flows[edge] += amount;
        network.tail(edge)
    } else {
        flows[edge] -= amount;
        network.head(edge)
    }
}

/// Brings as much more to the sink as fits through the walk over which it was found. Gives how much that is.
pub fn augment(network: &Network, flows: &mut [u64], tree: &Tree) -> u64
    requires network { IsNetwork network.now }
    requires flow { IsFlowOfValue (net_of network.now) flows.old (source_flow (net_of network.now) flows.old) }
    requires tree { IsTree (net_of network.now) flows.old tree.now }
    requires found { 0 < slice_index tree.now.places.items 1 }
    ensures flow { IsFlowOfValue (net_of network.now) flows.new (source_flow (net_of network.now) flows.old + result) }
    ensures some { 0 < result }
{
    let amount = tree.room(1);
    let mut at = 1;
    while at != 0 {
        at = push(network, flows, at, tree.arrival(at), amount);
    }
    amount
}
