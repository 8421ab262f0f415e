ghost use Rattle.std.specs.Prelude.{◌≡◌, [], List as Seq, IfOk};
ghost use Rattle.std.specs.Map.{keys_of};
ghost use Rattle.flow_graph.specs.declared.events.Event.{Event as AnEvent};
ghost use Rattle.flow_graph.specs.EventGraphs.{IsGraphOf};
ghost use Rattle.flow_graph.specs.Keeping.{TakesLinks};
ghost use Rattle.location_collapse.specs.Collapses.{StandsFor};
ghost use Rattle.location_collapse.specs.Private.Sorting.{HasSame};

use crate::collapses::Collapse;
use flow_base::{List, NoMemory, Point};
use flow_graph::{Builder, Graph, NamedLink};
use hinted_map::HintedMap;
use indexmap::IndexMap;
use std::alloc::Global;
use std::collections::{BTreeMap, BTreeSet};
use std::iter::FromIterator;

/// The points with their capacities, as they stand in the map.
fn listed_points(
    alloc: Global,
    capacities: &IndexMap<Point, u64>,
) -> Result<List<(Point, u128)>, NoMemory>
    ensures { IfOk result (λ listed. listed ≡ capacities.now.entries) }
{
    let mut listed = List::from_vec(Vec::with_capacity(alloc, capacities.len())?);
    for (point, capacity) in capacities {
        listed.push((*point, u128::from(*capacity)))?;
    }
    Ok(listed)
}

/// The points with their capacities, in order. They are sorted at once, since a run sees many of them in order.
fn sorted_points(
    alloc: Global,
    capacities: &HintedMap<Point, u64>,
) -> Result<BTreeMap<Point, u128>, NoMemory>
    ensures { IfOk result (λ sorted. HasSame sorted.entries capacities.now.map.entries) }
{
    let _differing = capacities.len();
    let listed = listed_points(alloc, &capacities.map)?;
    let sorted = BTreeMap::from_iter(alloc, listed.into_vec())?;
    Ok(sorted)
}

/// The links, as they stand in the map.
fn listed_links(alloc: Global, named: &IndexMap<NamedLink, ()>) -> Result<List<NamedLink>, NoMemory>
    ensures { IfOk result (λ listed. listed ≡ keys_of named.now.entries) }
{
    let mut listed = List::from_vec(Vec::with_capacity(alloc, named.len())?);
    for (link, _) in named {
        listed.push(*link)?;
    }
    Ok(listed)
}

/// The links, in order. They are sorted at once, as the points are.
fn sorted_links(
    alloc: Global,
    named: &IndexMap<NamedLink, ()>,
) -> Result<BTreeSet<NamedLink>, NoMemory>
    ensures { IfOk result (λ sorted. TakesLinks [] sorted.keys (keys_of named.now.entries)) }
{
    let listed = listed_links(alloc, named)?;
    let sorted = BTreeSet::from_iter(alloc, listed.into_vec())?;
    Ok(sorted)
}

/// The points and the links, in order.
fn builder_of(alloc: Global, collapse: &Collapse) -> Result<Builder, NoMemory>
    ensures points { IfOk result (λ builder. HasSame builder.capacities.entries
        collapse.now.points.capacities.map.entries) }
    ensures links { IfOk result (λ builder. TakesLinks [] builder.links.keys
        (keys_of collapse.now.links.named.map.entries)) }
{
    let capacities = sorted_points(alloc, &collapse.points.capacities)?;
    let links = sorted_links(alloc, &collapse.links.named.map)?;
    Ok(Builder { capacities, links })
}

/// The graph of the events taken.
fn graph_in(alloc: Global, collapse: &Collapse) -> Result<Graph, NoMemory>
    ensures { IfOk result (λ graph. (events : Seq AnEvent) → StandsFor collapse.now events → IsGraphOf events graph) }
{
    let builder = builder_of(alloc, collapse)?;
    let graph = builder.finish(alloc)?;
    Ok(graph)
}

impl Collapse {
    /// The graph of the events taken. Its error is lack of memory.
    pub fn finish(self, alloc: Global) -> Result<Graph, NoMemory>
        ensures { IfOk result (λ graph. (events : Seq AnEvent) → StandsFor self events → IsGraphOf events graph) }
    {
        graph_in(alloc, &self)
    }
}
