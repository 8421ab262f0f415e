ghost use Rattle.max_flow.specs.Private.Solving.{IsNetwork};

use crate::networks::Network;
use crate::tables::{Amounts, Arcs, Table};
use flow_base::NoMemory;
use std::alloc::Global;

/// The edges of a network by node, each edge as two arcs: one at the node that it leaves, and one back at the node that
/// it enters. A node's arcs stand side by side, first those of the edges that leave it.
#[derive(Drop)]
pub struct Rows {
    /// The number of nodes: none after these is an end of an edge.
    pub nodes: usize,
    /// For each node where its arcs begin, and last the number of arcs.
    pub starts: Table,
    /// For each node where its arcs begin that lead back over an edge.
    pub middles: Table,
    /// For each arc where it leads.
    pub arcs: Arcs,
    /// For each arc how much more it can carry: what is left of an edge's limit, or back over it what flows there.
    pub rooms: Amounts,
    /// The limit of an open edge.
    most: u64,
}

/// The sum of a network's limits, which no flow exceeds.
fn most_of(network: &Network) -> u64 {
    let mut most: u64 = 0;
    for limit in &network.limits {
        most = most.saturating_add(*limit);
    }
    most
}

/// One more than the last node that is an end of an edge. Most graphs use few of the many relays.
fn used_nodes(network: &Network) -> usize {
    let mut last: usize = 1;
    for tail in &network.tails {
        last = last.max(*tail as usize);
    }
    for head in &network.heads {
        last = last.max(*head as usize);
    }
    last.saturating_add(1)
}

impl Rows {
    /// The arcs of a network over which nothing flows.
    pub fn new(alloc: Global, network: &Network) -> Result<Rows, NoMemory>
        requires { IsNetwork network.now }
    {
        let nodes = used_nodes(network);
        let arcs = network.edges().saturating_mul(2);
        let mut leaving = Table::filled(alloc, 0, nodes)?;
        let mut entering = Table::filled(alloc, 0, nodes)?;
        for tail in &network.tails {
            let node = *tail as usize;
            leaving.put(node, leaving.at(node) + 1);
        }
        for head in &network.heads {
            let node = *head as usize;
            entering.put(node, entering.at(node) + 1);
        }
        let mut rows = Rows {
            nodes,
            starts: Table::filled(alloc, 0, nodes.saturating_add(1))?,
            middles: Table::filled(alloc, 0, nodes)?,
            arcs: Arcs::unset(alloc, arcs)?,
            rooms: Amounts::zeros(alloc, arcs)?,
            most: most_of(network),
        };
        rows.place(&mut leaving, &mut entering);
        rows.fill(network, &mut leaving, &mut entering);
        Ok(rows)
    }

    /// Gives each node as many arcs as edges leave and enter it, and writes into the counts where these begin.
    fn place(&mut self, leaving: &mut Table, entering: &mut Table) {
        let mut arc: usize = 0;
        for node in 0..self.nodes {
            let middle = arc.saturating_add(leaving.at(node));
            let end = middle.saturating_add(entering.at(node));
            self.starts.put(node, arc);
            self.middles.put(node, middle);
            leaving.put(node, arc);
            entering.put(node, middle);
            arc = end;
        }
        self.starts.put(self.nodes, arc);
    }

    /// Writes the arcs of each edge at the next place of its nodes.
    fn fill(&mut self, network: &Network, leaving: &mut Table, entering: &mut Table)
        requires { IsNetwork network.now }
    {
        for edge in 0..network.edges() {
            let tail = network.tail(edge);
            let head = network.head(edge);
            let there = leaving.at(tail);
            let back = entering.at(head);
            leaving.put(tail, there + 1);
            entering.put(head, back + 1);
            self.arcs.put(there, head, back);
            self.arcs.put(back, tail, there);
            self.rooms.put(there, network.limit(edge).min(self.most));
        }
    }

    /// Where the arcs of a node begin.
    pub fn start(&self, node: usize) -> usize {
        self.starts.at(node)
    }

    /// Where the arcs of a node end.
    pub fn end(&self, node: usize) -> usize {
        self.starts.at(node.saturating_add(1))
    }

    /// Where the arcs of a node begin that lead back over an edge.
    pub fn middle(&self, node: usize) -> usize {
        self.middles.at(node)
    }

    /// The node that an arc leads to.
    pub fn target(&self, arc: usize) -> usize {
        self.arcs.target(arc)
    }

    /// The other arc of an arc's edge.
    pub fn twin(&self, arc: usize) -> usize {
        self.arcs.twin(arc)
    }

    /// How much more an arc can carry.
    pub fn room(&self, arc: usize) -> u64 {
        self.rooms.at(arc)
    }

    /// How much more the other arc of an edge can carry; for an arc of an edge that leaves a node, what flows there.
    pub fn room_back(&self, arc: usize) -> u64 {
        self.rooms.at(self.twin(arc))
    }

    /// Whether something flows over the edge of an arc that leads along it. An open edge with all its room has no flow,
    /// which is seen here without a look at the other arc.
    pub fn has_flow(&self, arc: usize) -> bool {
        self.room(arc) != self.most && self.room_back(arc) != 0
    }

    /// Moves an amount over an arc.
    pub fn carry(&mut self, arc: usize, amount: u64) {
        let twin = self.arcs.twin(arc);
        self.rooms.take(arc, amount);
        self.rooms.add(twin, amount);
    }

    /// What flows over each edge of the network.
    pub fn flows(&self, alloc: Global, network: &Network) -> Result<Vec<u64>, NoMemory>
        requires { IsNetwork network.now }
    {
        let mut places = Table::filled(alloc, 0, self.nodes)?;
        for node in 0..self.nodes {
            places.put(node, self.starts.at(node));
        }
        let mut flows = Vec::with_capacity(alloc, network.edges())?;
        for edge in 0..network.edges() {
            let tail = network.tail(edge);
            let there = places.at(tail);
            places.put(tail, there + 1);
            let limit = network.limit(edge).min(self.most);
            let flow = limit.saturating_sub(self.rooms.at(there));
            flows.push(flow).map_err(|_| NoMemory)?;
        }
        Ok(flows)
    }
}
