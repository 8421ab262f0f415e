//! Rows of events and of the lists of graphs.

use crate::events::{event_of, link_of, point};
use flow_base::{List, NoMemory};
use flow_graph::{Arc, EventList, Events, Graph, Node, graph_of, has_few_events};
use std::alloc::Global;

/// The events that rows add.
#[derive(Drop)]
pub struct Graphs {
    events: EventList,
}

/// Prints the points of a graph; whether they were taken.
fn print_points(rt: &HostRuntime, points: &[Node]) -> bool {
    for node in points {
        if println!(rt; "{:?} capacity {}", node.point, node.capacity).is_err() {
            return false;
        }
    }
    true
}

/// Prints the links of a graph; whether they were taken.
fn print_links(rt: &HostRuntime, links: &[Arc]) -> bool {
    for link in links {
        if println!(rt; "from {:?} to {:?}", link.source, link.target).is_err() {
            return false;
        }
    }
    true
}

/// Prints the points of a graph, its relays and its links; whether they were taken.
fn print_graph(rt: &HostRuntime, graph: &Graph) -> bool {
    print_points(rt, graph.points.as_slice())
        && println!(rt; "relays {:?}", graph.relays.as_slice()).is_ok()
        && print_links(rt, graph.links.as_slice())
}

/// The points at 1, 2 and 3, with capacity 2.
fn three_points(alloc: Global) -> Result<List<Node>, NoMemory> {
    let mut points = List::new(alloc);
    for address in 1..4 {
        points.push(Node {
            point: point(address),
            capacity: 2,
        })?;
    }
    Ok(points)
}

/// Relays and links.
#[derive(Drop)]
struct Lists {
    relays: List<u16>,
    links: List<Arc>,
}

impl Lists {
    /// Adds the link or the relay that a word names; None where it is neither, or memory is short.
    fn push(&mut self, word: &str) -> Option<()> {
        match link_of(word) {
            Some(link) => self.links.push(link).ok(),
            None => self.relays.push(word.parse::<u16>().ok()?).ok(),
        }
    }
}

/// The relays and the links of a row; None where it has a word that is neither, or memory is short.
fn lists_of(alloc: Global, row: &str) -> Option<Lists> {
    let mut lists = Lists {
        relays: List::new(alloc),
        links: List::new(alloc),
    };
    for word in row.split(' ') {
        lists.push(word)?;
    }
    Some(lists)
}

/// Whether the lists of a row are those of a graph of three points; None where it has no lists, or memory is short.
fn are_of_graph(alloc: Global, row: &str) -> Option<bool> {
    let points = three_points(alloc).ok()?;
    let Lists { relays, links } = lists_of(alloc, row)?;
    Some(Graph::from_lists(points, relays, links).is_some())
}

/// Prints whether the lists of a row are those of a graph of three points.
fn print_lists(rt: &HostRuntime, row: &str) -> bool {
    match are_of_graph(rt.alloc(), row) {
        Some(true) => println!(rt; "a graph").is_ok(),
        Some(false) => println!(rt; "no graph").is_ok(),
        None => false,
    }
}

impl Graphs {
    /// No events.
    pub fn new(alloc: Global) -> Graphs {
        Graphs {
            events: EventList::new(alloc),
        }
    }

    /// Prints the graph of the events, and how many there are.
    fn print_events(&self, rt: &HostRuntime) -> bool {
        if !has_few_events(&self.events) {
            return false;
        }
        if println!(rt; "{} events", self.events.events().len()).is_err() {
            return false;
        }
        match graph_of(rt.alloc(), &self.events) {
            Ok(graph) => print_graph(rt, &graph),
            Err(_) => false,
        }
    }

    /// Adds the event of a row; whether it is one of these rows, and memory is not short.
    fn add(&mut self, name: &str, row: &str) -> bool {
        match event_of(name, row) {
            Some(event) => self.events.add(event).is_ok(),
            None => false,
        }
    }

    /// Prints the answer of a row; whether it is one of these rows, is printed, and memory is not short.
    pub fn print(&mut self, rt: &HostRuntime, name: &str, row: &str) -> bool {
        match name {
            "graph" => self.print_events(rt),
            "lists" => print_lists(rt, row),
            _ => self.add(name, row),
        }
    }
}
