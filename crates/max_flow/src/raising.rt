ghost use Rattle.std.specs.Prelude.{◌≡◌, ◌+◌, ◌<◌, ◌≤◌, length, slice_index, IfOk};
ghost use Rattle.max_flow.specs.Flows.{AreAtMost};
ghost use Rattle.max_flow.specs.Private.Networks.{IsFlow, IsSide, source_flow, capacity_of};
ghost use Rattle.max_flow.specs.Private.Rooms.{IsBounded, IsClosed, HasSmallSide, IsLeast};
ghost use Rattle.max_flow.specs.Private.Searching.{is_found};
ghost use Rattle.max_flow.specs.Private.Solving.{net_of, IsNetwork, IsTree, IsSearched, IsRaised};

use crate::deepening::deepen;
use crate::networks::Network;
use crate::searching::{Tree, search};
use crate::warm_start::{Start, first_flow};
use flow_base::NoMemory;
use std::alloc::Global;

/// A maximum flow of a network, its value, and for each node whether the source still reaches it (its place, else 0).
#[derive(Drop)]
pub struct Answer {
    pub value: u64,
    pub flows: Vec<u64>,
    pub places: Vec<u32>,
}

/// The value of a flow, and the last search over it.
#[derive(Drop)]
pub struct Raised {
    pub value: u64,
    pub tree: Tree,
}

/// Adds walks to a flow of this value until the sink is not reached any more: the walk of each search, and those over the
/// nodes that it placed. The first search is made already.
fn raise(
    alloc: Global,
    network: &Network,
    flows: &mut [u64],
    first: u64,
    found: Tree,
) -> Result<Raised, NoMemory>
    requires network { IsNetwork network.now }
    requires small { HasSmallSide (net_of network.now) }
    requires flow { IsSearched (net_of network.now) flows.old first found }
    ensures { IfOk result (λ raised. IsRaised (net_of network.now) flows.new raised.value raised.tree) }
{
    let mut value = first;
    let mut tree = found;
    while tree.place(1) != 0 {
        value += deepen(alloc, network, flows, &mut tree, u64::MAX)?;
        search(network, flows, &mut tree)?;
    }
    Ok(Raised { value, tree })
}

/// A maximum flow of a network, and the nodes that the source still reaches.
pub fn solve_network(alloc: Global, network: &Network) -> Result<Answer, NoMemory>
    requires network { IsNetwork network.now }
    requires small { HasSmallSide (net_of network.now) }
    ensures count { IfOk result (λ answer. length answer.places.items ≡ network.now.nodes) }
    ensures flow { IfOk result (λ answer. IsFlow (net_of network.now) answer.flows.items) }
    ensures value { IfOk result (λ answer. source_flow (net_of network.now) answer.flows.items ≡ answer.value) }
    ensures most { IfOk result (λ answer. AreAtMost answer.value answer.flows.items) }
    ensures side { IfOk result (λ answer. IsSide (net_of network.now) (is_found answer.places.items)) }
    ensures capacity { IfOk result (λ answer. capacity_of (net_of network.now) (is_found answer.places.items) ≡
        answer.value) }
    ensures least { IfOk result (λ answer. IsLeast (net_of network.now) answer.value (is_found answer.places.items)) }
{
    let Start {
        value: first,
        mut flows,
        tree: found,
    } = first_flow(alloc, network)?;
    let Raised { value, tree } = raise(alloc, network, &mut flows, first, found)?;
    let Tree {
        places,
        arrivals: _,
        rooms: _,
        queue: _,
    } = tree;
    Ok(Answer {
        value,
        flows,
        places,
    })
}
