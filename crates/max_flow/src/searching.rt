ghost use Rattle.std.specs.Prelude.{◌≡◌, ◌+◌, ◌-◌, ◌^◌, ◌<◌, ◌≤◌, ◌++◌, ◌∷◌, [], length, slice_index, slice_set, take, IfOk};
ghost use Rattle.std.specs.Prelude.{OnOk};
ghost use Rattle.max_flow.specs.Private.Networks.{IsFlow};
ghost use Rattle.max_flow.specs.Private.Rooms.{IsClosed};
ghost use Rattle.max_flow.specs.Private.Searching.{HasGrown, IsArc, is_found, IsStart};
ghost use Rattle.max_flow.specs.Private.Solving.{net_of, IsNetwork, IsRoomy, IsTree};

use crate::networks::Network;
use crate::scanning::scan;
use flow_base::NoMemory;
use std::alloc::Global;

/// The nodes that a search has found, in the order of the queue: for each node its place in the queue, counted from 1
/// (0: not found), the edge over which it was found, and how much more can be brought there.
#[derive(Drop)]
pub struct Tree {
    pub places: Vec<u32>,
    pub arrivals: Vec<u32>,
    pub rooms: Vec<u64>,
    pub queue: Vec<u32>,
}

/// An arc of the residual network: an edge over which more can be brought from one node to another, along it or back
/// over it, and how much more.
#[derive(Clone, Copy)]
pub struct ResidualArc {
    pub from: usize,
    pub edge: usize,
    pub to: usize,
    pub room: u64,
}

impl Tree {
    /// A tree with room for so many nodes.
    pub fn new(alloc: Global, nodes: usize) -> Result<Tree, NoMemory>
        ensures { IfOk result (λ tree. IsRoomy nodes tree) }
    {
        Ok(Tree {
            places: vec![in alloc; 0; nodes]?,
            arrivals: vec![in alloc; 0; nodes]?,
            rooms: vec![in alloc; 0; nodes]?,
            queue: Vec::new(alloc),
        })
    }

    /// Forgets each node but the source, which is found.
    pub fn begin(&mut self, nodes: usize) -> Result<(), NoMemory>
        requires some { 0 < nodes }
        requires room { IsRoomy nodes self.old }
        ensures { OnOk result (IsStart nodes self.new.places.items self.new.arrivals.items self.new.rooms.items
            self.new.queue.items) }
    {
        self.places.fill(0);
        self.queue.clear();
        self.put(0, 0, u64::MAX)
    }

    /// The place of a node in the queue, counted from 1; 0 where it is not found.
    pub fn place(&self, node: usize) -> usize
        requires { node < length self.now.places.items }
        ensures { result ≡ slice_index self.now.places.items node }
    {
        self.places[node] as usize
    }

    /// The edge over which a node was found.
    pub fn arrival(&self, node: usize) -> usize
        requires { node < length self.now.arrivals.items }
        ensures { result ≡ slice_index self.now.arrivals.items node }
    {
        self.arrivals[node] as usize
    }

    /// How much more can be brought to a node.
    pub fn room(&self, node: usize) -> u64
        requires { node < length self.now.rooms.items }
        ensures { result ≡ slice_index self.now.rooms.items node }
    {
        self.rooms[node]
    }

    /// How many nodes are found.
    pub fn count(&self) -> usize
        ensures { result ≡ length self.now.queue.items }
    {
        self.queue.len()
    }

    /// The node at an index of the queue.
    pub fn queued(&self, index: usize) -> usize
        requires { index < length self.now.queue.items }
        ensures { result ≡ slice_index self.now.queue.items index }
    {
        self.queue[index] as usize
    }

    /// Takes the last node of the queue out again.
    pub fn pop(&mut self)
        requires some { 0 < length self.old.queue.items }
        requires inside { slice_index self.old.queue.items (length self.old.queue.items - 1) < length
            self.old.places.items }
        ensures queue { self.new.queue.items ≡ take (length self.old.queue.items - 1) self.old.queue.items }
        ensures places { self.new.places.items
            ≡ slice_set self.old.places.items (slice_index self.old.queue.items (length self.old.queue.items - 1)) 0 }
        ensures arrivals { self.new.arrivals.items ≡ self.old.arrivals.items }
        ensures rooms { self.new.rooms.items ≡ self.old.rooms.items }
    {
        let last = self.queue.len() - 1;
        let node = self.queue[last] as usize;
        self.queue.truncate(last);
        self.places[node] = 0;
    }

    /// Puts a node that is not found yet at the end of the queue.
    fn put(&mut self, node: usize, edge: usize, room: u64) -> Result<(), NoMemory>
        requires places { node < length self.old.places.items }
        requires arrivals { node < length self.old.arrivals.items }
        requires rooms { node < length self.old.rooms.items }
        requires small { node < 2 ^ 32 }
        requires edge { edge < 2 ^ 32 }
        requires few { length self.old.queue.items + 1 < 2 ^ 32 }
        ensures queue { OnOk result (self.new.queue.items ≡ self.old.queue.items ++ node ∷ []) }
        ensures places { OnOk result (self.new.places.items ≡ slice_set self.old.places.items node
            (length self.old.queue.items + 1)) }
        ensures arrivals { OnOk result (self.new.arrivals.items ≡ slice_set self.old.arrivals.items node edge) }
        ensures rooms { OnOk result (self.new.rooms.items ≡ slice_set self.old.rooms.items node room) }
    {
        self.queue.push(node as u32).map_err(|_| NoMemory)?;
        self.places[node] = self.queue.len() as u32;
        self.arrivals[node] = edge as u32;
        self.rooms[node] = room;
        Ok(())
    }
}

/// Finds a node over a residual arc, where the arc has room and the node is not found yet.
pub fn reach(
    network: &Network,
    flows: &[u64],
    tree: &mut Tree,
    arc: ResidualArc,
) -> Result<(), NoMemory>
    requires network { IsNetwork network.now }
    requires tree { IsTree (net_of network.now) flows.now tree.old }
    requires arc { IsArc (net_of network.now) flows.now tree.old.places.items arc }
    ensures tree { OnOk result (IsTree (net_of network.now) flows.now tree.new) }
    ensures grown { OnOk result (HasGrown tree.old.places.items (length tree.old.queue.items) tree.new.places.items
        (length tree.new.queue.items)) }
    ensures found { OnOk result (0 < arc.room → 0 < slice_index tree.new.places.items arc.to) }
{
    if arc.room == 0 || tree.place(arc.to) != 0 {
        return Ok(());
    }
    let narrow = arc.room.min(tree.room(arc.from));
    tree.put(arc.to, arc.edge, narrow)?;
    Ok(())
}

/// Searches from the source over edges with room, nearest nodes first, until the sink is found or nothing is left. What
/// the tree held is gone.
pub fn search(network: &Network, flows: &[u64], tree: &mut Tree) -> Result<(), NoMemory>
    requires network { IsNetwork network.now }
    requires flow { IsFlow (net_of network.now) flows.now }
    requires room { IsRoomy network.now.nodes tree.old }
    ensures tree { OnOk result (IsTree (net_of network.now) flows.now tree.new) }
    ensures closed { OnOk result (slice_index tree.new.places.items 1 ≡ 0 → IsClosed (net_of network.now)
        flows.now (is_found tree.new.places.items)) }
{
    tree.begin(network.nodes())?;
    let mut next = 0;
    while next < tree.count() && tree.place(1) == 0 {
        scan(network, flows, tree, next)?;
        next += 1;
    }
    Ok(())
}
