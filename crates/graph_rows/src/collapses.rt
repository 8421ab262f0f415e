//! Collapses events at the limits of a graph, and random lists of events, and prints what comes of them. What must be
//! printed is what the rules say of the limits, and another implementation of the lists.

mod edges;
mod loads;
mod random_lists;

use edges::{EDGES, Edge, Found};
use loads::Load;
use std::io;

/// Prints what comes of so many events over so many points and links.
pub fn print_load(rt: &HostRuntime, points: u32, links: u32, events: u32) -> io::Result<()> {
    let load = Load {
        points,
        links,
        events,
    };
    match load.graph(rt.alloc()) {
        Ok(graph) => println!(rt; "points {} links {}", graph.points.len(), graph.links.len()),
        Err(_) => println!(rt; "no room"),
    }
}

/// Prints the answers at a limit.
fn print_edge(rt: &HostRuntime, edge: Edge) -> io::Result<()> {
    let Ok(found) = edge.found(rt.alloc()) else {
        return println!(rt; "memory is short");
    };
    let Found {
        answers,
        points,
        relays,
        links,
    } = found;
    let name = edge.name();
    println!(rt; "{name}: {answers}; points {points} relays {relays} links {links}")
}

/// Prints the answers at the limits.
fn print_edges(rt: &HostRuntime) -> io::Result<()> {
    for edge in EDGES {
        print_edge(rt, edge)?;
    }
    Ok(())
}

/// Prints how many of 1,000 random lists collapse to the graph that their list has, and what these graphs have together.
fn print_lists(rt: &HostRuntime) -> io::Result<()> {
    match random_lists::compared(rt.alloc(), 1000) {
        Ok(sums) => println!(rt; "{sums}"),
        Err(_) => println!(rt; "memory is short"),
    }
}

/// Does what a row says, `limits` or `lists`.
pub fn follow(rt: &HostRuntime, row: &str) -> io::Result<()> {
    match row {
        "limits" => print_edges(rt),
        "lists" => print_lists(rt),
        _ => println!(rt; "no row"),
    }
}
