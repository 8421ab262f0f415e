ghost use Rattle.std.specs.BTreeMap as tree;
ghost use Rattle.std.specs.BTreeSet as sorted;
ghost use Rattle.std.specs.Prelude.{◌≡◌, ℕ, ◌^◌, ◌<◌, ◌||◌, IfOk, IsTrue, List as Seq, OnOk, length, map, nat_eq};
ghost use Rattle.std.specs.Prelude.{slice_index, true};
ghost use Rattle.std.specs.List.{list_all, list_any};
ghost use Rattle.std.specs.List.Sorted.{IsStrictlySortedBy};
ghost use Rattle.std.specs.Ordering.{nat_cmp};
ghost use Rattle.flow_base.specs.PointOrders.{point_cmp};
ghost use Rattle.flow_graph.specs.declared.events.Event.{Event as AnEvent};
ghost use Rattle.flow_graph.specs.Graphs.{are_relays};
ghost use Rattle.flow_graph.specs.EventGraphs.{IsGraphOf, is_relay_of, link_cmp, names_relay};
ghost use Rattle.flow_graph.specs.Keeping.{is_sound};
ghost use Rattle.flow_graph.specs.Builders.{ArePositive, StandsFor, arc_at, end_at, has_point, index_in};

use crate::builders::Builder;
use crate::ends::{Arc, End};
use crate::graphs::Graph;
use crate::named_links::{NamedEnd, NamedLink};
use crate::nodes::Node;
use flow_base::{List, NoMemory, Point};
use std::alloc::Global;
use std::collections::{BTreeMap, BTreeSet};

/// The points with their capacities, in order.
fn nodes_of(alloc: Global, capacities: &BTreeMap<Point, u128>) -> Result<List<Node>, NoMemory>
    ensures nodes { IfOk result (λ nodes. map (λ node. (node.point, node.capacity)) nodes ≡ capacities.now.entries) }
    ensures ordered { tree.IsOrdered point_cmp capacities.now }
{
    let mut nodes = List::new(alloc);
    for (point, capacity) in capacities {
        nodes.push(Node {
            point: *point,
            capacity: *capacity,
        })?;
    }
    Ok(nodes)
}

/// The points alone.
fn names_of(alloc: Global, nodes: &[Node]) -> Result<List<Point>, NoMemory>
    ensures { IfOk result (λ names. names ≡ map (λ node. node.point) nodes.now) }
{
    let mut names = List::new(alloc);
    for node in nodes {
        names.push(node.point)?;
    }
    Ok(names)
}

/// The index of a point among ascending points, or their number where it is none of them.
fn index_of(names: &[Point], point: &Point) -> u32
    requires sorted { IsStrictlySortedBy point_cmp names.now }
    requires few { length names.now < 2 ^ 32 }
    ensures { result ≡ index_in names.now point.now }
{
    match names.binary_search(point) {
        Ok(index) => index as u32,
        Err(_) => names.len() as u32,
    }
}

/// An end by the index of its point.
fn end_of(names: &[Point], end: &NamedEnd) -> End
    requires sorted { IsStrictlySortedBy point_cmp names.now }
    requires few { length names.now < 2 ^ 32 }
    ensures { result ≡ end_at names.now end.now }
{
    match end {
        NamedEnd::Source => End::Source,
        NamedEnd::At(point) => End::Point(index_of(names, point)),
        NamedEnd::Relay(region) => End::Relay(*region),
        NamedEnd::Sink => End::Sink,
    }
}

/// A link by the indices of its points.
fn arc_of(names: &[Point], link: &NamedLink) -> Arc
    requires sorted { IsStrictlySortedBy point_cmp names.now }
    requires few { length names.now < 2 ^ 32 }
    ensures { result ≡ arc_at names.now link.now }
{
    Arc {
        source: end_of(names, &link.source),
        target: end_of(names, &link.target),
    }
}

/// The links, by the indices of their points.
fn links_of(
    alloc: Global,
    names: &[Point],
    named: &BTreeSet<NamedLink>,
) -> Result<List<Arc>, NoMemory>
    requires sorted { IsStrictlySortedBy point_cmp names.now }
    requires few { length names.now < 2 ^ 32 }
    ensures links { IfOk result (λ links. links ≡ map (arc_at names.now) named.now.keys) }
    ensures ordered { sorted.IsOrdered link_cmp named.now }
{
    let mut links = List::new(alloc);
    for link in named {
        links.push(arc_of(names, link))?;
    }
    Ok(links)
}

/// Puts the region of a relay into the set.
fn note(relays: &mut BTreeSet<u16>, end: &NamedEnd) -> Result<(), NoMemory>
    ensures { OnOk result ((region : ℕ) → sorted.contains nat_cmp relays.new region
        ≡ (sorted.contains nat_cmp relays.old region || is_relay_of region end.now)) }
{
    match end {
        NamedEnd::Relay(region) => match relays.insert(*region) {
            Ok(_) => Ok(()),
            Err(_) => Err(NoMemory),
        },
        _ => Ok(()),
    }
}

/// The regions of the relays that the links name.
fn relay_set(alloc: Global, named: &BTreeSet<NamedLink>) -> Result<BTreeSet<u16>, NoMemory>
    ensures { IfOk result (λ relays. (region : ℕ) → sorted.contains nat_cmp relays region ≡ list_any
        (names_relay region) named.now.keys) }
{
    let mut relays = BTreeSet::new(alloc);
    for link in named {
        note(&mut relays, &link.source)?;
        note(&mut relays, &link.target)?;
    }
    Ok(relays)
}

/// The items of a set, in order.
fn listed(alloc: Global, relays: &BTreeSet<u16>) -> Result<List<u16>, NoMemory>
    ensures items { IfOk result (λ list. list ≡ relays.now.keys) }
    ensures ordered { sorted.IsOrdered nat_cmp relays.now }
{
    let mut list = List::new(alloc);
    for region in relays {
        list.push(*region)?;
    }
    Ok(list)
}

/// The regions of the relays that the links name, ascending.
fn relays_of(alloc: Global, named: &BTreeSet<NamedLink>) -> Result<List<u16>, NoMemory>
    ensures relays { IfOk result (λ relays. (region : ℕ) → list_any (nat_eq region) relays ≡ list_any
        (names_relay region) named.now.keys) }
    ensures ascend { IfOk result (λ relays. IsTrue (are_relays relays)) }
{
    let set = relay_set(alloc, named)?;
    let list = listed(alloc, &set)?;
    Ok(list)
}

/// Tells that regions are numbers of 16 bits. It does nothing when it is called.
fn tell_range(regions: &[u16])
    ensures { (i : ℕ) → slice_index regions.now i < 65536 }
{
    let _count = regions.len();
}

impl Builder {
    /// The graph of the events for which the builder stands. Its error is lack of memory.
    pub fn finish(&self, alloc: Global) -> Result<Graph, NoMemory>
        requires positive { ArePositive self.now }
        requires sound { list_all (is_sound (has_point self.now)) self.now.links.keys ≡ true }
        requires few { tree.IsOrdered point_cmp self.now.capacities → length self.now.capacities.entries < 2 ^ 32 }
        ensures { IfOk result (λ graph. (events : Seq AnEvent) → StandsFor self.now events → IsGraphOf events graph) }
    {
        let points = nodes_of(alloc, &self.capacities)?;
        let nodes = points.as_slice();
        let names = names_of(alloc, nodes)?;
        let relays = relays_of(alloc, &self.links)?;
        let regions = relays.as_slice();
        tell_range(regions);
        let ascending = names.as_slice();
        let links = links_of(alloc, ascending, &self.links)?;
        Ok(Graph {
            points,
            relays,
            links,
        })
    }
}
