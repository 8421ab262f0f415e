ghost use Rattle.std.specs.Prelude.{◌≡◌, ◌<◌, length, slice_index};
ghost use Rattle.max_flow.specs.Private.Rooms.{bound};

use crate::chains::Chains;

/// The network of a graph: for each edge the nodes it leads from and to, the limits of the first edges, and the edges
/// that leave and enter each node.
#[derive(Drop)]
pub struct Network {
    pub nodes: usize,
    pub tails: Vec<u32>,
    pub heads: Vec<u32>,
    pub limits: Vec<u64>,
    pub leaving: Chains,
    pub entering: Chains,
}

impl Network {
    /// The number of nodes.
    pub fn nodes(&self) -> usize
        ensures { result ≡ self.now.nodes }
    {
        self.nodes
    }

    /// The number of edges.
    pub fn edges(&self) -> usize
        ensures { result ≡ length self.now.tails.items }
    {
        self.tails.len()
    }

    /// The node that an edge leads from.
    pub fn tail(&self, edge: usize) -> usize
        requires { edge < length self.now.tails.items }
        ensures { result ≡ slice_index self.now.tails.items edge }
    {
        self.tails[edge] as usize
    }

    /// The node that an edge leads to.
    pub fn head(&self, edge: usize) -> usize
        requires { edge < length self.now.heads.items }
        ensures { result ≡ slice_index self.now.heads.items edge }
    {
        self.heads[edge] as usize
    }

    /// How much an edge can hold: its limit, or for an open edge all that a number can.
    #[tactic(auto, unfolding(crate::specs::Private::Rooms::bound))]
    pub fn limit(&self, edge: usize) -> u64
        ensures { result ≡ bound self.now.limits.items edge }
    {
        if edge < self.limits.len() {
            self.limits[edge]
        } else {
            u64::MAX
        }
    }
}
