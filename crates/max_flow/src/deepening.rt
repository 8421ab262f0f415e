ghost use Rattle.std.specs.Prelude.{◌≡◌, ◌+◌, ◌-◌, ◌<◌, length, slice_index, false, IfOk, OnOk};
ghost use Rattle.max_flow.specs.Private.Balances.{IsFlowOfValue};
ghost use Rattle.max_flow.specs.Private.Deepening.{HasCurrentArcs, IsStack, IsWalk, IsWalkTo};
ghost use Rattle.max_flow.specs.Private.Networks.{source_flow};
ghost use Rattle.max_flow.specs.Private.Rooms.{HasSmallSide};
ghost use Rattle.max_flow.specs.Private.Searching.{IsStart};
ghost use Rattle.max_flow.specs.Private.Solving.{net_of, IsNetwork, IsRoomy, IsTree};

use crate::augmenting::augment;
use crate::networks::Network;
use crate::searching::{ResidualArc, Tree, reach};
use flow_base::NoMemory;
use std::alloc::Global;

/// The level graph of a search, in which walks lead from lower levels to higher ones, and the current arcs at each node:
/// those to be tried next.
#[derive(Drop)]
pub struct LevelGraph {
    /// For each node its level, which is its place in the search; 0 where it was not found.
    levels: Vec<u32>,
    /// For each node its current arc forward: an edge that leaves it, counted from 1, or 0.
    leaving: Vec<u32>,
    /// For each node its current arc back: an edge that enters it, counted from 1, or 0.
    entering: Vec<u32>,
}

impl LevelGraph {
    /// The level graph of a search. All arcs are still to be tried.
    fn new(alloc: Global, network: &Network, tree: &Tree) -> Result<LevelGraph, NoMemory>
        requires { IsNetwork network.now }
        ensures { IfOk result (λ graph. HasCurrentArcs network.now graph) }
    {
        let levels = tree.places.as_slice().to_vec(alloc)?;
        let leaving = network.leaving.first.as_slice().to_vec(alloc)?;
        let entering = network.entering.first.as_slice().to_vec(alloc)?;
        Ok(LevelGraph {
            levels,
            leaving,
            entering,
        })
    }

    /// Whether a walk may go on from a node to another: one of a higher level, or the sink.
    fn is_deeper(&self, at: usize, to: usize) -> bool {
        to == 1
            || at < self.levels.len() && to < self.levels.len() && self.levels[at] < self.levels[to]
    }

    /// Whether any arc is still to be tried at a node.
    fn is_open(&self, node: usize) -> bool {
        node < self.leaving.len() && self.leaving[node] != 0
            || node < self.entering.len() && self.entering[node] != 0
    }

    /// The next edge that leaves a node and on which a walk may go on, counted from 1, or 0. What is passed over is not
    /// tried again.
    fn next_leaving(&mut self, network: &Network, flows: &[u64], tree: &Tree, at: usize) -> u32
        requires network { IsNetwork network.now }
        requires walk { IsWalkTo (net_of network.now) flows.now tree.now at }
        requires current { HasCurrentArcs network.now self.old }
        ensures current { HasCurrentArcs network.now self.new }
        ensures arc { result ≡ slice_index self.new.leaving.items at }
    {
        while self.leaving[at] != 0 {
            let edge = (self.leaving[at] - 1) as usize;
            let to = network.head(edge);
            if flows[edge] < network.limit(edge)
                && tree.place(to) == 0
                && self.is_deeper(at, to)
                && self.is_open(to)
            {
                return self.leaving[at];
            }
            self.leaving[at] = network.leaving.before(edge);
        }
        0
    }

    /// The next edge that enters a node and over which a walk may go back, counted from 1, or 0. What is passed over is
    /// not tried again.
    fn next_entering(&mut self, network: &Network, flows: &[u64], tree: &Tree, at: usize) -> u32
        requires network { IsNetwork network.now }
        requires walk { IsWalkTo (net_of network.now) flows.now tree.now at }
        requires current { HasCurrentArcs network.now self.old }
        ensures current { HasCurrentArcs network.now self.new }
        ensures arc { result ≡ slice_index self.new.entering.items at }
    {
        while self.entering[at] != 0 {
            let edge = (self.entering[at] - 1) as usize;
            let to = network.tail(edge);
            if flows[edge] != 0
                && tree.place(to) == 0
                && self.is_deeper(at, to)
                && self.is_open(to)
            {
                return self.entering[at];
            }
            self.entering[at] = network.entering.before(edge);
        }
        0
    }

    /// Lets a walk advance over an edge that leaves its last node. Gives whether there was one.
    fn advance_leaving(
        &mut self,
        network: &Network,
        flows: &[u64],
        tree: &mut Tree,
        at: usize,
    ) -> Result<bool, NoMemory>
        requires network { IsNetwork network.now }
        requires walk { IsWalkTo (net_of network.now) flows.now tree.old at }
        requires current { HasCurrentArcs network.now self.old }
        ensures current { HasCurrentArcs network.now self.new }
        ensures walk { OnOk result (IsWalk (net_of network.now) flows.now tree.new) }
        ensures stays { result ≡ Ok false → tree.new ≡ tree.old }
    {
        let cursor = self.next_leaving(network, flows, tree, at);
        if cursor == 0 {
            return Ok(false);
        }
        let edge = (cursor - 1) as usize;
        let arc = ResidualArc {
            from: at,
            edge,
            to: network.head(edge),
            room: network.limit(edge).saturating_sub(flows[edge]),
        };
        reach(network, flows, tree, arc)?;
        Ok(true)
    }

    /// Lets a walk advance back over an edge that enters its last node. Gives whether there was one.
    fn advance_entering(
        &mut self,
        network: &Network,
        flows: &[u64],
        tree: &mut Tree,
        at: usize,
    ) -> Result<bool, NoMemory>
        requires network { IsNetwork network.now }
        requires walk { IsWalkTo (net_of network.now) flows.now tree.old at }
        requires current { HasCurrentArcs network.now self.old }
        ensures current { HasCurrentArcs network.now self.new }
        ensures walk { OnOk result (IsWalk (net_of network.now) flows.now tree.new) }
        ensures stays { result ≡ Ok false → tree.new ≡ tree.old }
    {
        let cursor = self.next_entering(network, flows, tree, at);
        if cursor == 0 {
            return Ok(false);
        }
        let edge = (cursor - 1) as usize;
        let arc = ResidualArc {
            from: at,
            edge,
            to: network.tail(edge),
            room: flows[edge],
        };
        reach(network, flows, tree, arc)?;
        Ok(true)
    }
}

/// Takes the nodes of a walk out again, but the source.
fn restart(tree: &mut Tree, nodes: usize)
    requires some { 0 < nodes }
    requires stack { IsStack nodes tree.old.places.items tree.old.arrivals.items tree.old.rooms.items
        tree.old.queue.items }
    ensures { IsStart nodes tree.new.places.items tree.new.arrivals.items tree.new.rooms.items tree.new.queue.items }
{
    while tree.count() > 1 {
        tree.pop();
    }
}

/// Takes the last node of a walk out again, which is not the source.
fn retreat(network: &Network, flows: &[u64], tree: &mut Tree, at: usize)
    requires network { IsNetwork network.now }
    requires walk { IsWalk (net_of network.now) flows.now tree.old }
    requires last { slice_index tree.old.queue.items (length tree.old.queue.items - 1) ≡ at }
    requires some { 0 < at }
    ensures { IsWalk (net_of network.now) flows.now tree.new }
{
    let _nodes = network.nodes();
    let _edges = flows.len();
    tree.pop();
}

/// Adds walks in a level graph, until no more is found, or so many steps are taken. Gives what they add.
fn add_walks(
    network: &Network,
    flows: &mut [u64],
    tree: &mut Tree,
    graph: &mut LevelGraph,
    steps: u64,
) -> Result<u64, NoMemory>
    requires network { IsNetwork network.now }
    requires small { HasSmallSide (net_of network.now) }
    requires flow { IsFlowOfValue (net_of network.now) flows.old (source_flow (net_of network.now) flows.old) }
    requires walk { IsWalk (net_of network.now) flows.old tree.old }
    requires current { HasCurrentArcs network.now graph.old }
    ensures flow { IfOk result (λ total. IsFlowOfValue (net_of network.now) flows.new
        (source_flow (net_of network.now) flows.old + total)) }
    ensures room { OnOk result (IsRoomy network.now.nodes tree.new) }
{
    let mut total = 0;
    for _ in 0..steps {
        let at = tree.queued(tree.count() - 1);
        if at == 1 {
            total += augment(network, flows, tree);
            restart(tree, network.nodes());
            continue;
        }
        if graph.advance_leaving(network, flows, tree, at)? {
            continue;
        }
        if graph.advance_entering(network, flows, tree, at)? {
            continue;
        }
        if at == 0 {
            return Ok(total);
        }
        retreat(network, flows, tree, at);
    }
    Ok(total)
}

/// Adds the walk by which a search found the sink, and then walks in the search's level graph, until no more is found, or
/// so many steps are taken. Gives what they add to the value, at least 1.
pub fn deepen(
    alloc: Global,
    network: &Network,
    flows: &mut [u64],
    tree: &mut Tree,
    steps: u64,
) -> Result<u64, NoMemory>
    requires network { IsNetwork network.now }
    requires small { HasSmallSide (net_of network.now) }
    requires flow { IsFlowOfValue (net_of network.now) flows.old (source_flow (net_of network.now) flows.old) }
    requires tree { IsTree (net_of network.now) flows.old tree.old }
    requires found { 0 < slice_index tree.old.places.items 1 }
    ensures flow { IfOk result (λ total. IsFlowOfValue (net_of network.now) flows.new
        (source_flow (net_of network.now) flows.old + total)) }
    ensures some { IfOk result (λ total. 0 < total) }
    ensures room { OnOk result (IsRoomy network.now.nodes tree.new) }
{
    let first = augment(network, flows, tree);
    let mut graph = LevelGraph::new(alloc, network, tree)?;
    tree.begin(network.nodes())?;
    let more = add_walks(network, flows, tree, &mut graph, steps)?;
    Ok(first + more)
}
