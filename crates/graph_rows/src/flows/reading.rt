use flow_base::{List, NoMemory, Point, Slot};
use flow_graph::{Arc, End, Graph, Node};
use std::alloc::Global;

/// An end by its word: `s`, `p` and an index, `r` and a region, or `t`.
fn end_of(word: &str) -> Option<End> {
    if word == "s" {
        return Some(End::Source);
    }
    if word == "t" {
        return Some(End::Sink);
    }
    if let Some(index) = word.strip_prefix("p") {
        return match index.parse::<u32>() {
            Ok(index) => Some(End::Point(index)),
            Err(_) => None,
        };
    }
    let region = word.strip_prefix("r")?;
    match region.parse::<u16>() {
        Ok(region) => Some(End::Relay(region)),
        Err(_) => None,
    }
}

/// A link by its word: two ends with a dash between them.
fn link_of(word: &str) -> Option<Arc> {
    let (source, target) = word.split_once("-")?;
    Some(Arc {
        source: end_of(source)?,
        target: end_of(target)?,
    })
}

/// A point by the word of its capacity, with this number as its address.
fn node_of(word: &str, address: usize) -> Option<Node> {
    let Ok(address) = u32::try_from(address) else {
        return None;
    };
    match word.parse::<u128>() {
        Ok(capacity) => Some(Node {
            point: Point {
                region: 0,
                address,
                slot: Slot::Result,
            },
            capacity,
        }),
        Err(_) => None,
    }
}

/// The lists of a graph, as far as a line was read.
#[derive(Drop)]
struct Lists {
    points: List<Node>,
    relays: List<u16>,
    links: List<Arc>,
}

impl Lists {
    /// Puts what a word says; false where it says nothing.
    fn put(&mut self, word: &str) -> Result<bool, NoMemory> {
        if let Some(link) = link_of(word) {
            self.links.push(link)?;
        } else if let Some(End::Relay(region)) = end_of(word) {
            self.relays.push(region)?;
        } else if let Some(node) = node_of(word, self.points.len()) {
            self.points.push(node)?;
        } else {
            return Ok(false);
        }
        Ok(true)
    }
}

/// The graph of a line; None where a word is none of these, or the lists break what a graph keeps.
pub fn graph_of(alloc: Global, line: &str) -> Result<Option<Graph>, NoMemory> {
    let mut lists = Lists {
        points: List::new(alloc),
        relays: List::new(alloc),
        links: List::new(alloc),
    };
    for word in line.split_whitespace() {
        if !lists.put(word)? {
            return Ok(None);
        }
    }
    let Lists {
        points,
        relays,
        links,
    } = lists;
    Ok(Graph::from_lists(points, relays, links))
}
