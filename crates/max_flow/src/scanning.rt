ghost use Rattle.std.specs.Prelude.{◌≡◌, ℕ, ◌+◌, ◌<◌, ◌≤◌, length, slice_index, true, OnOk};
ghost use Rattle.max_flow.specs.Private.Networks.{IsFlow};
ghost use Rattle.max_flow.specs.Private.Searching.{HasGrown, HasLeft, HasEntered, HasNoInflow, IsScanned};
ghost use Rattle.max_flow.specs.Private.Solving.{net_of, IsNetwork, IsTree};

use crate::networks::Network;
use crate::searching::{ResidualArc, Tree, reach};
use flow_base::NoMemory;

/// Finds what is reached over the edges that leave a found node.
fn scan_leaving(
    network: &Network,
    flows: &[u64],
    tree: &mut Tree,
    at: usize,
) -> Result<(), NoMemory>
    requires network { IsNetwork network.now }
    requires flows { length flows.now ≡ length network.now.tails.items }
    requires tree { IsTree (net_of network.now) flows.now tree.old }
    requires inside { at < network.now.nodes }
    requires found { 0 < slice_index tree.old.places.items at }
    ensures tree { OnOk result (IsTree (net_of network.now) flows.now tree.new) }
    ensures grown { OnOk result (HasGrown tree.old.places.items (length tree.old.queue.items) tree.new.places.items
        (length tree.new.queue.items)) }
    ensures left { OnOk result (HasLeft (net_of network.now) flows.now tree.new.places.items at 0) }
{
    let mut cursor = network.leaving.last_at(at);
    while cursor != 0 {
        let edge = (cursor - 1) as usize;
        let arc = ResidualArc {
            from: at,
            edge,
            to: network.head(edge),
            room: network.limit(edge).saturating_sub(flows[edge]),
        };
        reach(network, flows, tree, arc)?;
        cursor = network.leaving.before(edge);
    }
    Ok(())
}

/// Finds what is reached back over the edges that enter a found node.
fn scan_entering(
    network: &Network,
    flows: &[u64],
    tree: &mut Tree,
    at: usize,
) -> Result<(), NoMemory>
    requires network { IsNetwork network.now }
    requires flows { length flows.now ≡ length network.now.tails.items }
    requires tree { IsTree (net_of network.now) flows.now tree.old }
    requires inside { at < network.now.nodes }
    requires found { 0 < slice_index tree.old.places.items at }
    ensures tree { OnOk result (IsTree (net_of network.now) flows.now tree.new) }
    ensures grown { OnOk result (HasGrown tree.old.places.items (length tree.old.queue.items) tree.new.places.items
        (length tree.new.queue.items)) }
    ensures entered { OnOk result (HasEntered (net_of network.now) flows.now tree.new.places.items at 0) }
{
    let mut cursor = network.entering.last_at(at);
    while cursor != 0 {
        let edge = (cursor - 1) as usize;
        let arc = ResidualArc {
            from: at,
            edge,
            to: network.tail(edge),
            room: flows[edge],
        };
        reach(network, flows, tree, arc)?;
        cursor = network.entering.before(edge);
    }
    Ok(())
}

/// Whether one edge alone leaves a node, and has no flow. Then nothing flows into the node either.
fn is_idle(network: &Network, flows: &[u64], at: usize) -> bool
    requires network { IsNetwork network.now }
    requires flow { IsFlow (net_of network.now) flows.now }
    requires inside { at < network.now.nodes }
    ensures { result ≡ true → HasNoInflow (net_of network.now) flows.now at }
{
    let last = network.leaving.last_at(at);
    if at < 2 || last == 0 {
        return false;
    }
    let edge = (last - 1) as usize;
    if flows[edge] != 0 {
        return false;
    }
    let earlier = network.leaving.before(edge);
    earlier == 0
}

/// Finds what is reached back over the edges that enter a found node, which are not looked at where the node is idle.
fn scan_back(network: &Network, flows: &[u64], tree: &mut Tree, at: usize) -> Result<(), NoMemory>
    requires network { IsNetwork network.now }
    requires flow { IsFlow (net_of network.now) flows.now }
    requires tree { IsTree (net_of network.now) flows.now tree.old }
    requires inside { at < network.now.nodes }
    requires found { 0 < slice_index tree.old.places.items at }
    ensures tree { OnOk result (IsTree (net_of network.now) flows.now tree.new) }
    ensures grown { OnOk result (HasGrown tree.old.places.items (length tree.old.queue.items) tree.new.places.items
        (length tree.new.queue.items)) }
    ensures entered { OnOk result (HasEntered (net_of network.now) flows.now tree.new.places.items at 0) }
{
    if is_idle(network, flows, at) {
        return Ok(());
    }
    scan_entering(network, flows, tree, at)
}

/// Finds what is reached over the edges at the node that stands at an index of the queue.
pub fn scan(network: &Network, flows: &[u64], tree: &mut Tree, next: usize) -> Result<(), NoMemory>
    requires network { IsNetwork network.now }
    requires flow { IsFlow (net_of network.now) flows.now }
    requires tree { IsTree (net_of network.now) flows.now tree.old }
    requires inside { next < length tree.old.queue.items }
    requires scanned { IsScanned (net_of network.now) flows.now tree.old.places.items next }
    ensures tree { OnOk result (IsTree (net_of network.now) flows.now tree.new) }
    ensures grown { OnOk result (length tree.old.queue.items ≤ length tree.new.queue.items) }
    ensures scanned { OnOk result (IsScanned (net_of network.now) flows.now tree.new.places.items (next + 1)) }
{
    let at = tree.queued(next);
    scan_leaving(network, flows, tree, at)?;
    scan_back(network, flows, tree, at)?;
    Ok(())
}
