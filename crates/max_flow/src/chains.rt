ghost use Rattle.std.specs.Prelude.{◌≡◌, ℕ, ◌-◌, ◌^◌, ◌<◌, ◌≤◌, length, slice_index, replicate, IfOk};
ghost use Rattle.max_flow.specs.Private.Chains.{AreChains};
ghost use Rattle.max_flow.specs.Private.Solving.{AreZeros};

use flow_base::NoMemory;
use std::alloc::Global;

/// Edges by the node at one of their ends, as chains: for each node its last edge, and for each edge the one before it
/// at its node. Both are counted from 1; 0 is none.
#[derive(Drop)]
pub struct Chains {
    pub first: Vec<u32>,
    pub next: Vec<u32>,
}

/// Writes the chains of the keys over zeros.
fn link(keys: &[u32], first: &mut [u32], next: &mut [u32])
    requires few { length keys.now < 2 ^ 32 }
    requires keys { (i : ℕ) → i < length keys.now → slice_index keys.now i < length first.old }
    requires none { (v : ℕ) → slice_index first.old v ≡ 0 }
    requires nexts { length next.old ≡ length keys.now }
    ensures { AreChains keys.now (length keys.now) (length first.old) first.new next.new }
{
    for (i, key) in keys.iter().enumerate() {
        let node = *key as usize;
        next[i] = first[node];
        first[node] = (i + 1) as u32;
    }
}

/// So many zeros.
fn zeros(alloc: Global, count: usize) -> Result<Vec<u32>, NoMemory>
    ensures { IfOk result (λ numbers. AreZeros count numbers.items) }
{
    let numbers = vec![in alloc; 0; count]?;
    Ok(numbers)
}

/// The chains of the keys, which are below `nodes`.
pub fn chains_of(alloc: Global, keys: &[u32], nodes: usize) -> Result<Chains, NoMemory>
    requires few { length keys.now < 2 ^ 32 }
    requires keys { (i : ℕ) → i < length keys.now → slice_index keys.now i < nodes }
    ensures { IfOk result (λ c. AreChains keys.now (length keys.now) nodes c.first.items c.next.items) }
{
    let mut first = zeros(alloc, nodes)?;
    let mut next = zeros(alloc, keys.len())?;
    link(keys, &mut first, &mut next);
    Ok(Chains { first, next })
}

impl Chains {
    /// The last edge at a node, counted from 1, or 0.
    pub fn last_at(&self, node: usize) -> u32
        requires { node < length self.now.first.items }
        ensures { result ≡ slice_index self.now.first.items node }
    {
        self.first[node]
    }

    /// The edge before an edge at the same node, counted from 1, or 0.
    pub fn before(&self, edge: usize) -> u32
        requires { edge < length self.now.next.items }
        ensures { result ≡ slice_index self.now.next.items edge }
    {
        self.next[edge]
    }
}
