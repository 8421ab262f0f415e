ghost use Rattle.std.specs.Prelude.{◌≡◌, ℕ, ◌≤◌, ◌<◌, length, slice_index, IfOk, IfSome, true};
ghost use Rattle.max_flow.specs.Flows.{AreAtMost};
ghost use Rattle.max_flow.specs.Private.Balances.{AreBalanced, AreSums, IsFlowOfValue};
ghost use Rattle.max_flow.specs.Private.Solving.{net_of, IsNetwork};

use crate::networks::Network;
use flow_base::NoMemory;
use std::alloc::Global;

/// Adds each flow at the place of its key, over zeros. Gives whether each sum fits in a number.
fn add_up(keys: &[u32], flows: &[u64], sums: &mut [u64]) -> bool
    requires count { length flows.now ≡ length keys.now }
    requires none { (v : ℕ) → slice_index sums.old v ≡ 0 }
    requires inside { (i : ℕ) → i < length keys.now → slice_index keys.now i < length sums.old }
    ensures { result ≡ true → AreSums keys.now flows.now (length keys.now) sums.new }
{
    for (i, key) in keys.iter().enumerate() {
        let node = *key as usize;
        let Some(sum) = sums[node].checked_add(flows[i]) else {
            return false;
        };
        sums[node] = sum;
    }
    true
}

/// Whether as much flows into each node as out of it, but for the source and the sink.
fn are_balanced(into: &[u64], out: &[u64]) -> bool
    requires { length out.now ≡ length into.now }
    ensures { result ≡ true → AreBalanced into.now out.now }
{
    for node in 2..into.len() {
        if into[node] != out[node] {
            return false;
        }
    }
    true
}

/// Whether no flow exceeds its limit.
fn are_within(flows: &[u64], limits: &[u64]) -> bool
    requires { length limits.now ≤ length flows.now }
    ensures { result ≡ true → (i : ℕ) → i < length limits.now → slice_index flows.now i ≤ slice_index limits.now i }
{
    for (i, limit) in limits.iter().enumerate() {
        if flows[i] > *limit {
            return false;
        }
    }
    true
}

/// Whether no flow exceeds a number.
fn are_at_most(flows: &[u64], most: u64) -> bool
    ensures { result ≡ true → AreAtMost most flows.now }
{
    for flow in flows {
        if *flow > most {
            return false;
        }
    }
    true
}

/// For each node the sum of the flows that have it as their key. None where a sum is 2^64 or more.
fn sums_at(
    alloc: Global,
    nodes: usize,
    keys: &[u32],
    flows: &[u64],
) -> Result<Option<Vec<u64>>, NoMemory>
    requires count { length flows.now ≡ length keys.now }
    requires inside { (i : ℕ) → i < length keys.now → slice_index keys.now i < nodes }
    ensures count { IfOk result (λ found. IfSome found (λ sums. length sums.items ≡ nodes)) }
    ensures sums { IfOk result (λ found. IfSome found (λ sums. AreSums keys.now flows.now (length keys.now) sums.items)) }
{
    let mut sums = vec![in alloc; 0; nodes]?;
    if !add_up(keys, flows, &mut sums) {
        return Ok(None);
    }
    Ok(Some(sums))
}

/// The value of a feasible flow of which no part exceeds it. None where the numbers are no such flow, or a sum at a node
/// is 2^64 or more. Its error is lack of memory.
pub fn value_of_flow(
    alloc: Global,
    network: &Network,
    flows: &[u64],
) -> Result<Option<u64>, NoMemory>
    requires { IsNetwork network.now }
    ensures { IfOk result (λ found. IfSome found (λ value. IsFlowOfValue (net_of network.now) flows.now value)) }
{
    if flows.len() != network.edges() || !are_within(flows, &network.limits) {
        return Ok(None);
    }
    let Some(into) = sums_at(alloc, network.nodes(), &network.heads, flows)? else {
        return Ok(None);
    };
    let Some(out) = sums_at(alloc, network.nodes(), &network.tails, flows)? else {
        return Ok(None);
    };
    let value = out[0];
    if !are_balanced(&into, &out) || !are_at_most(flows, value) {
        return Ok(None);
    }
    Ok(Some(value))
}
