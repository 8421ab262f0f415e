ghost use Rattle.std.specs.Prelude.{◌^◌, ◌<◌};

use crate::tables::Table;
use flow_base::NoMemory;
use std::alloc::Global;

/// What stands in a list where no node is.
const NONE: usize = 0xffff_ffff;

/// What stands before and after each node in a list.
#[derive(Drop)]
struct Links {
    /// For each node the next one.
    next: Table,
    /// For each node the one before.
    before: Table,
}

impl Links {
    fn new(alloc: Global, nodes: usize) -> Result<Links, NoMemory> {
        Ok(Links {
            next: Table::filled(alloc, 0, nodes)?,
            before: Table::filled(alloc, 0, nodes)?,
        })
    }

    /// Makes a node follow another one. Where one of them is none, the other stands at that end of its list.
    fn join(&mut self, before: usize, next: usize) {
        self.next.put(before, next);
        self.before.put(next, before);
    }
}

/// The nodes by their label, a lower bound of the number of arcs with room from them to the sink. The nodes of a label
/// stand in a list.
#[derive(Drop)]
pub struct Layers {
    /// The number of nodes; as a label, that of the nodes which are in no list.
    nodes: usize,
    /// For each node its label.
    labels: Table,
    /// For each label the first node of its list.
    firsts: Table,
    /// How the nodes of the lists follow each other.
    links: Links,
    /// No node of a list has a greater label.
    top: usize,
}

impl Layers {
    /// Layers of so many nodes, none of which is in a list.
    pub fn new(alloc: Global, nodes: usize) -> Result<Layers, NoMemory> {
        let mut layers = Layers {
            nodes,
            labels: Table::filled(alloc, 0, nodes)?,
            firsts: Table::filled(alloc, 0, nodes)?,
            links: Links::new(alloc, nodes)?,
            top: 0,
        };
        layers.clear();
        Ok(layers)
    }

    /// Takes each node out of its list.
    pub fn clear(&mut self) {
        for node in 0..self.nodes {
            self.labels.put(node, self.nodes);
        }
        self.firsts.fill(0xffff_ffff);
        self.top = 0;
    }

    /// The number of nodes, which is the label of the nodes in no list.
    pub fn nodes(&self) -> usize {
        self.nodes
    }

    /// The label of a node.
    pub fn label(&self, node: usize) -> usize
        ensures { result < 2 ^ 32 }
    {
        self.labels.at(node)
    }

    /// Puts a node that is in no list into that of a label.
    pub fn enter(&mut self, node: usize, label: usize) {
        self.links.join(NONE, node);
        self.links.join(node, self.firsts.at(label));
        self.labels.put(node, label);
        self.firsts.put(label, node);
        self.top = self.top.max(label);
    }

    /// Takes a node out of its list.
    fn leave(&mut self, node: usize) {
        let before = self.links.before.at(node);
        let next = self.links.next.at(node);
        self.links.join(before, next);
        if before == NONE {
            self.firsts.put(self.labels.at(node), next);
        }
        self.labels.put(node, self.nodes);
    }

    /// Brings a node into the list of a greater label, and out of all lists where that is the number of nodes. Where its
    /// old label has no node any more, no node of a greater one reaches the sink: then all of them go out of their lists.
    pub fn lift(&mut self, node: usize, label: usize) {
        let old = self.labels.at(node);
        self.leave(node);
        if self.firsts.at(old) == NONE {
            self.cut_above(old);
        } else if label < self.nodes {
            self.enter(node, label);
        }
    }

    /// Takes the nodes of each greater label out of their lists.
    fn cut_above(&mut self, label: usize) {
        for lower in label..self.top {
            let higher = lower + 1;
            let mut node = self.firsts.at(higher);
            for _ in 0..self.nodes {
                if node == NONE {
                    break;
                }
                self.labels.put(node, self.nodes);
                node = self.links.next.at(node);
            }
            self.firsts.put(higher, NONE);
        }
        self.top = label;
    }
}
