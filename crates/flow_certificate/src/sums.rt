ghost use Rattle.std.specs.Prelude.{◌≡◌, ℕ, ◌+◌, ◌^◌, ◌<◌, length, slice_index};
ghost use Rattle.max_flow.specs.Private.GraphNetworks.{halves_from, network_of};
ghost use Rattle.flow_certificate.specs.Private.Sums.{AreAdded, AreSmall, AreZero, HaveRoom, HaveSums, brought, given, heads_of};
ghost use Rattle.flow_certificate.specs.Private.Sums.{flows_of, tails_of};

use crate::certificates::Certificate;
use flow_graph::Arc;
use max_flow::{head_number, tail_number};

/// Adds an amount to the counter of a node, where it is one of those from `base` on that have counters.
fn add_at(sums: &mut [u128], base: usize, node: usize, amount: u64)
    requires { (k : ℕ) → k < length sums.old → slice_index sums.old k < 2 ^ 127 }
    ensures { AreAdded base (given node amount) sums.old sums.new }
{
    if base <= node && node - base < sums.len() {
        sums[node - base] += u128::from(amount);
    }
}

/// Adds what flows through each point to the counter of one of its halves: of the first for 2, of the second for 3.
fn add_points(sums: &mut [u128], base: usize, start: usize, flows: &[u64])
    requires start { start < 4 }
    requires count { length flows.now < 2 ^ 32 }
    requires small { AreSmall flows.now }
    requires room { HaveRoom sums.old }
    ensures { AreAdded base (brought (halves_from start (length flows.now)) flows.now (length flows.now)) sums.old
        sums.new }
{
    for (i, flow) in flows.iter().enumerate() {
        add_at(sums, base, start + 2 * i, *flow);
    }
}

/// Adds what flows over each link to the counter of the node that it leaves.
fn add_sources(sums: &mut [u128], base: usize, count: usize, links: &[Arc], flows: &[u64])
    requires count { count < 2 ^ 32 }
    requires same { length flows.now ≡ length links.now }
    requires small { AreSmall flows.now }
    requires room { HaveRoom sums.old }
    ensures { AreAdded base (brought (tails_of count links.now) flows.now (length links.now)) sums.old sums.new }
{
    for (i, link) in links.iter().enumerate() {
        add_at(sums, base, tail_number(count, link.source), flows[i]);
    }
}

/// Adds what flows over each link to the counter of the node that it enters.
fn add_targets(sums: &mut [u128], base: usize, count: usize, links: &[Arc], flows: &[u64])
    requires count { count < 2 ^ 32 }
    requires same { length flows.now ≡ length links.now }
    requires small { AreSmall flows.now }
    requires room { HaveRoom sums.old }
    ensures { AreAdded base (brought (heads_of count links.now) flows.now (length links.now)) sums.old sums.new }
{
    for (i, link) in links.iter().enumerate() {
        add_at(sums, base, head_number(count, link.target), flows[i]);
    }
}

/// Puts into each counter what flows out of its node, the nodes being those from `base` on.
pub fn sum_outflows(certificate: &Certificate, base: usize, sums: &mut [u128])
    requires { AreZero sums.old }
    ensures sums { HaveSums ((network_of certificate.now.graph).tails) (flows_of certificate.now.solved) base sums.new }
    ensures count { length sums.new ≡ length sums.old }
{
    let Certificate { graph, solved } = certificate;
    let count = graph.points.len();
    add_points(sums, base, 2, solved.flow.points.as_slice());
    add_sources(
        sums,
        base,
        count,
        graph.links.as_slice(),
        solved.flow.links.as_slice(),
    );
}

/// Puts into each counter what flows into its node, the nodes being those from `base` on.
pub fn sum_inflows(certificate: &Certificate, base: usize, sums: &mut [u128])
    requires { AreZero sums.old }
    ensures sums { HaveSums ((network_of certificate.now.graph).heads) (flows_of certificate.now.solved) base sums.new }
    ensures count { length sums.new ≡ length sums.old }
{
    let Certificate { graph, solved } = certificate;
    let count = graph.points.len();
    add_points(sums, base, 3, solved.flow.points.as_slice());
    add_targets(
        sums,
        base,
        count,
        graph.links.as_slice(),
        solved.flow.links.as_slice(),
    );
}
