ghost use Rattle.std.specs.Prelude.{length, IfOk, OnOk};
ghost use Rattle.max_flow.specs.Private.Balances.{IsFlowOfValue};
ghost use Rattle.max_flow.specs.Private.Rooms.{HasSmallSide};
ghost use Rattle.max_flow.specs.Private.Solving.{net_of, IsNetwork, IsRoomy, IsSearched, AreZeros};

use crate::deepening::deepen;
use crate::feasible::value_of_flow;
use crate::networks::Network;
use crate::preflow::Preflow;
use crate::returning::make_flow;
use crate::searching::{Tree, search};
use flow_base::NoMemory;
use std::alloc::Global;

/// A flow, its value, and a search over it.
#[derive(Drop)]
pub struct Start {
    pub value: u64,
    pub flows: Vec<u64>,
    pub tree: Tree,
}

/// So many zeros.
fn zeros(alloc: Global, count: usize) -> Result<Vec<u64>, NoMemory>
    ensures { IfOk result (λ numbers. AreZeros count numbers.items) }
{
    let numbers = vec![in alloc; 0; count]?;
    Ok(numbers)
}

/// The flow that is 0 on each edge.
fn no_flow(alloc: Global, network: &Network) -> Result<Vec<u64>, NoMemory>
    requires { IsNetwork network.now }
    ensures { IfOk result (λ flows. IsFlowOfValue (net_of network.now) flows.items 0) }
{
    let flows = zeros(alloc, network.edges())?;
    Ok(flows)
}

/// Numbers for the edges that are a maximum flow where all goes well. Nothing is said of them.
fn guess(alloc: Global, network: &Network) -> Result<Vec<u64>, NoMemory>
    requires { IsNetwork network.now }
{
    let mut preflow = Preflow::new(alloc, network)?;
    preflow.raise();
    make_flow(alloc, &mut preflow)?;
    preflow.rows.flows(alloc, network)
}

/// Adds the walk of one search to no flow, and those over the nodes that it placed, by as many steps as there are edges.
/// Gives the value.
fn raise_once(
    alloc: Global,
    network: &Network,
    flows: &mut [u64],
    tree: &mut Tree,
) -> Result<u64, NoMemory>
    requires network { IsNetwork network.now }
    requires small { HasSmallSide (net_of network.now) }
    requires none { IsFlowOfValue (net_of network.now) flows.old 0 }
    requires room { IsRoomy network.now.nodes tree.old }
    ensures value { IfOk result (λ value. IsFlowOfValue (net_of network.now) flows.new value) }
    ensures room { OnOk result (IsRoomy network.now.nodes tree.new) }
{
    search(network, flows, tree)?;
    if tree.place(1) == 0 {
        return Ok(0);
    }
    let steps = network.edges() as u64;
    let value = deepen(alloc, network, flows, tree, steps)?;
    Ok(value)
}

/// A flow of this value, searched.
fn searched(network: &Network, flows: Vec<u64>, value: u64, tree: Tree) -> Result<Start, NoMemory>
    requires network { IsNetwork network.now }
    requires flow { IsFlowOfValue (net_of network.now) flows.items value }
    requires room { IsRoomy network.now.nodes tree }
    ensures { IfOk result (λ start. IsSearched (net_of network.now) start.flows.items start.value start.tree) }
{
    let mut tree = tree;
    search(network, &flows, &mut tree)?;
    Ok(Start { value, flows, tree })
}

/// The flow of one round of the search.
fn first_round(alloc: Global, network: &Network) -> Result<Start, NoMemory>
    requires network { IsNetwork network.now }
    requires small { HasSmallSide (net_of network.now) }
    ensures { IfOk result (λ start. IsSearched (net_of network.now) start.flows.items start.value start.tree) }
{
    let mut flows = no_flow(alloc, network)?;
    let mut tree = Tree::new(alloc, network.nodes())?;
    let value = raise_once(alloc, network, &mut flows, &mut tree)?;
    searched(network, flows, value, tree)
}

/// The flow that the search goes on from: that of its first round; or where the sink is still reached then, the numbers
/// of a preflow, if they are a flow.
pub fn first_flow(alloc: Global, network: &Network) -> Result<Start, NoMemory>
    requires network { IsNetwork network.now }
    requires small { HasSmallSide (net_of network.now) }
    ensures { IfOk result (λ start. IsSearched (net_of network.now) start.flows.items start.value start.tree) }
{
    let first = first_round(alloc, network)?;
    if first.tree.place(1) == 0 {
        return Ok(first);
    }
    let flows = guess(alloc, network)?;
    match value_of_flow(alloc, network, &flows)? {
        Some(value) => searched(network, flows, value, first.tree),
        None => Ok(first),
    }
}
