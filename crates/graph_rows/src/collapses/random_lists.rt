ghost use Rattle.flow_graph.specs.EventGraphs.{HasFewPoints};

use crate::collapses::loads::{below, next};
use flow_base::{NoMemory, Point, Slot};
use flow_graph::{Event, EventList, Events, Graph, Node, graph_of, has_few_events};
use location_collapse::Collapse;
use std::alloc::Global;
use std::fmt;

/// How many graphs of lists were compared, how many agree, and what these have together.
#[derive(Clone, Copy)]
pub struct Sums {
    pub compared: u64,
    pub agree: u64,
    pub points: u64,
    pub relays: u64,
    pub links: u64,
    pub bits: u128,
}

impl fmt::Display for Sums {
    fn fmt<W: fmt::Write>(&self, f: &mut fmt::Formatter<W>) -> fmt::Result {
        let Sums {
            compared,
            agree,
            points,
            relays,
            links,
            bits,
        } = *self;
        write!(f, "{compared} lists, {agree} agree: ")?;
        write!(
            f,
            "points {points} relays {relays} links {links} bits {bits}"
        )
    }
}

/// One of eight points.
fn point_of(number: u32) -> Point {
    Point {
        region: (number % 2) as u16,
        address: 4 * (number / 4 % 2),
        slot: if number / 2 % 2 == 0 {
            Slot::Result
        } else {
            Slot::OutReg(7)
        },
    }
}

/// The event that a state of the generator determines.
fn event_of(state: u64) -> Event {
    let first = point_of((state >> 40) as u32 % 8);
    let second = point_of((state >> 44) as u32 % 8);
    let region = ((state >> 48) % 3) as u16;
    match (state >> 56) % 6 {
        0 => Event::Pass {
            point: first,
            mask: (state >> 16 & 0xff) as u32,
        },
        1 => Event::Pass {
            point: first,
            mask: 0,
        },
        2 => Event::Link {
            source: first,
            target: second,
        },
        3 => Event::FromSecret { point: first },
        4 => Event::Implicit {
            point: first,
            region,
        },
        _ => Event::Out {
            region,
            point: first,
        },
    }
}

/// A list of so many events.
fn list_of(alloc: Global, seed: u64, count: u32) -> Result<EventList, NoMemory> {
    let mut state = seed;
    let mut list = EventList::new(alloc);
    for _ in 0..count {
        state = next(state);
        list.add(event_of(state))?;
    }
    Ok(list)
}

/// The graph to which the events of a list collapse; None where one is not taken.
fn collapsed(alloc: Global, list: &EventList) -> Result<Option<Graph>, NoMemory> {
    let mut collapse = Collapse::new(alloc)?;
    for event in list.events().as_slice() {
        if collapse.add(*event).is_err() {
            return Ok(None);
        }
    }
    let graph = collapse.finish(alloc)?;
    Ok(Some(graph))
}

fn are_same(first: &[Node], second: &[Node]) -> bool {
    for (node, other) in first.iter().zip(second.iter()) {
        if node.point != other.point || node.capacity != other.capacity {
            return false;
        }
    }
    first.len() == second.len()
}

fn is_same(first: &Graph, second: &Graph) -> bool {
    are_same(first.points.as_slice(), second.points.as_slice())
        && first.relays.as_slice() == second.relays.as_slice()
        && first.links.as_slice() == second.links.as_slice()
}

impl Sums {
    /// Adds what a graph has.
    fn add(&mut self, graph: &Graph) {
        self.agree = self.agree.saturating_add(1);
        self.points = self.points.saturating_add(graph.points.len() as u64);
        self.relays = self.relays.saturating_add(graph.relays.len() as u64);
        self.links = self.links.saturating_add(graph.links.len() as u64);
        for node in graph.points.as_slice() {
            self.bits = self.bits.saturating_add(node.capacity);
        }
    }
}

/// Compares the graph of a list with the graph to which its events collapse.
fn compare(alloc: Global, list: &EventList, sums: &mut Sums) -> Result<(), NoMemory>
    requires { HasFewPoints list.now }
{
    let graph = graph_of(alloc, list)?;
    if let Some(other) = collapsed(alloc, list)? {
        if is_same(&graph, &other) {
            sums.add(&graph);
        }
    }
    Ok(())
}

/// Compares the graphs of so many random lists, each with the graph to which its events collapse.
pub fn compared(alloc: Global, lists: u64) -> Result<Sums, NoMemory> {
    let mut sums = Sums {
        compared: lists,
        agree: 0,
        points: 0,
        relays: 0,
        links: 0,
        bits: 0,
    };
    for seed in 0..lists {
        let list = list_of(alloc, seed, below(next(seed), 60))?;
        if has_few_events(&list) {
            compare(alloc, &list, &mut sums)?;
        }
    }
    Ok(sums)
}
