ghost use Rattle.std.specs.Prelude.{◌≡◌, ◌+◌, ◌*◌, ◌≤◌, map, length, IfOk, take, drop};
ghost use Rattle.max_flow.specs.Flows.{has_first, has_second};
ghost use Rattle.max_flow.specs.Private.GraphNetworks.{relay_room};
ghost use Rattle.max_flow.specs.Private.Sides.{marks};
ghost use Rattle.max_flow.specs.Private.Searching.{is_found};
ghost use Rattle.max_flow.specs.Private.Sides.{found_marks};

use crate::answers::{Flow, Half, Side};
use flow_base::{List, NoMemory};
use flow_graph::Graph;
use std::alloc::Global;

/// The point's halves that are in a side.
fn half_of(first: bool, second: bool) -> Half
    ensures first { has_first result ≡ first }
    ensures second { has_second result ≡ second }
{
    match (first, second) {
        (true, true) => Half::Both,
        (true, false) => Half::FirstOnly,
        (false, true) => Half::SecondOnly,
        (false, false) => Half::Neither,
    }
}

/// For each point its halves that are found.
fn found_halves(alloc: Global, places: &[u32], count: usize) -> Result<List<Half>, NoMemory>
    requires count { count ≤ 65536 }
    requires places { 2 + 2 * count ≤ length places.now }
    ensures count { IfOk result (λ halves. length halves ≡ count) }
    ensures marks { IfOk result (λ halves. marks halves ≡ found_marks places.now count) }
{
    let mut halves = List::new(alloc);
    for i in 0..count {
        let half = half_of(0 < places[2 + 2 * i], 0 < places[3 + 2 * i]);
        halves.push(half)?;
    }
    Ok(halves)
}

/// For each relay whether it is found, where the relays' nodes begin at `start`.
#[tactic(auto, using(crate::proofs::FewRelays::relay_within))]
fn found_relays(
    alloc: Global,
    places: &[u32],
    start: usize,
    relays: &[u16],
) -> Result<List<bool>, NoMemory>
    requires { start + relay_room relays.now ≤ length places.now }
    ensures { IfOk result (λ found. found ≡ map (λ region. is_found places.now (start + region)) relays.now) }
{
    let mut found = List::new(alloc);
    for region in relays {
        found.push(0 < places[start + *region as usize])?;
    }
    Ok(found)
}

/// The side of what is found.
pub fn side_of(alloc: Global, graph: &Graph, places: &[u32]) -> Result<Side, NoMemory>
    requires count { length graph.now.points ≤ 65536 }
    requires places { length places.now ≡ 2 + 2 * length graph.now.points + relay_room graph.now.relays }
    ensures points_count { IfOk result (λ side. length side.points ≡ length graph.now.points) }
    ensures points { IfOk result (λ side. marks side.points ≡ found_marks places.now (length graph.now.points)) }
    ensures relays { IfOk result (λ side. side.relays
        ≡ map (λ region. is_found places.now (2 + 2 * length graph.now.points + region)) graph.now.relays) }
{
    let count = graph.points.len();
    let halves = found_halves(alloc, places, count)?;
    let relays = found_relays(alloc, places, 2 + 2 * count, graph.relays.as_slice())?;
    Ok(Side {
        points: halves,
        relays,
    })
}

/// What flows through the points, and over the links.
pub fn flow_of(graph: &Graph, flows: Vec<u64>) -> Result<Flow, NoMemory>
    requires { length flows.items ≡ length graph.now.points + length graph.now.links }
    ensures points { IfOk result (λ flow. flow.points ≡ take (length graph.now.points) flows.items) }
    ensures links { IfOk result (λ flow. flow.links ≡ drop (length graph.now.points) flows.items) }
{
    let mut points = flows;
    let links = points.split_off(graph.points.len())?;
    Ok(Flow {
        points: List::from_vec(points),
        links: List::from_vec(links),
    })
}
