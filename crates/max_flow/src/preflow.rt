ghost use Rattle.max_flow.specs.Private.Solving.{IsNetwork};

use crate::layers::Layers;
use crate::networks::Network;
use crate::queues::Queue;
use crate::rows::Rows;
use crate::tables::{Amounts, Table};
use flow_base::NoMemory;
use std::alloc::Global;

/// The number of the source's node.
pub const SOURCE: usize = 0;

/// The number of the sink's node.
pub const SINK: usize = 1;

/// How often the distances to the sink are measured at most.
const ROUNDS: usize = 2000;

/// A preflow: at least as much flows into each node but the source as out of it; what stays there is its excess. The
/// excess is pushed towards the sink, the nodes in turn.
#[derive(Drop)]
pub struct Preflow {
    pub rows: Rows,
    pub excesses: Amounts,
    layers: Layers,
    /// For each node the arc over which to push next.
    cursors: Table,
    /// The nodes that have excess and may reach the sink.
    active: Queue,
    /// The nodes whose distance is known, and those before them not yet.
    measured: Queue,
}

impl Preflow {
    /// The preflow of a network in which nothing flows.
    pub fn new(alloc: Global, network: &Network) -> Result<Preflow, NoMemory>
        requires { IsNetwork network.now }
    {
        let rows = Rows::new(alloc, network)?;
        let nodes = rows.nodes;
        Ok(Preflow {
            rows,
            excesses: Amounts::zeros(alloc, nodes)?,
            layers: Layers::new(alloc, nodes)?,
            cursors: Table::filled(alloc, 0, nodes)?,
            active: Queue::new(alloc, nodes)?,
            measured: Queue::new(alloc, nodes)?,
        })
    }

    /// Brings as much to the sink as it can take, or as is found in many rounds.
    pub fn raise(&mut self) {
        self.leave_source();
        for _ in 0..ROUNDS {
            self.measure();
            if self.push_all() {
                return;
            }
        }
    }

    /// How much a node could pass on at most.
    fn passable(&self, node: usize) -> u64 {
        let mut sum: u64 = 0;
        for arc in self.rows.start(node)..self.rows.end(node) {
            sum = sum.saturating_add(self.rows.room(arc));
        }
        sum
    }

    /// Brings over each edge that leaves the source as much as its end could pass on.
    fn leave_source(&mut self) {
        for arc in self.rows.start(SOURCE)..self.rows.end(SOURCE) {
            let target = self.rows.target(arc);
            let amount = self.rows.room(arc).min(self.passable(target));
            self.rows.carry(arc, amount);
            self.excesses.add(target, amount);
        }
    }

    /// Labels each node by its distance to the sink, and makes those active that have excess.
    fn measure(&mut self) {
        self.layers.clear();
        self.active.clear();
        self.measured.clear();
        self.layers.enter(SINK, 0);
        self.measured.push(SINK);
        for _ in 0..self.layers.nodes() {
            let Some(node) = self.measured.pop() else {
                return;
            };
            self.look_back(node);
        }
    }

    /// Labels the nodes from which an arc with room leads to this one.
    fn look_back(&mut self, node: usize) {
        let label = self.layers.label(node) + 1;
        let middle = self.rows.middle(node);
        for arc in self.rows.start(node)..middle {
            let from = self.rows.target(arc);
            if self.is_unlabelled(from) && self.rows.has_flow(arc) {
                self.measure_one(from, label);
            }
        }
        for arc in middle..self.rows.end(node) {
            let from = self.rows.target(arc);
            if self.is_unlabelled(from) && self.rows.room_back(arc) != 0 {
                self.measure_one(from, label);
            }
        }
    }

    /// Whether a node has no label yet, and is not the source.
    fn is_unlabelled(&self, node: usize) -> bool {
        self.layers.label(node) == self.layers.nodes() && node != SOURCE
    }

    /// Labels a node, and makes it active where it has excess.
    fn measure_one(&mut self, node: usize, label: usize) {
        self.layers.enter(node, label);
        self.cursors.put(node, self.rows.start(node));
        self.measured.push(node);
        if self.excesses.at(node) != 0 {
            self.active.push(node);
        }
    }

    /// Pushes the excess of the active nodes on. Gives whether none is active any more; it ends earlier where as much was
    /// looked at as it costs to measure the distances anew.
    fn push_all(&mut self) -> bool {
        let enough = self.rows.arcs.items.len();
        let mut looked: usize = 0;
        while looked < enough {
            let Some(node) = self.active.pop() else {
                return true;
            };
            self.push(node);
            looked = looked.saturating_add(1);
            if self.excesses.at(node) != 0 && self.layers.label(node) < self.layers.nodes() {
                looked = looked.saturating_add(self.relabel(node));
            }
        }
        false
    }

    /// Pushes the excess of a node over arcs with room that lead one label down, as far as they carry it.
    fn push(&mut self, node: usize) {
        let label = self.layers.label(node);
        let mut excess = self.excesses.at(node);
        for arc in self.cursors.at(node)..self.rows.end(node) {
            let target = self.rows.target(arc);
            let room = self.rows.room(arc);
            if room == 0 || self.layers.label(target) + 1 != label {
                continue;
            }
            let amount = excess.min(room);
            self.rows.carry(arc, amount);
            self.receive(target, amount);
            excess -= amount;
            if excess == 0 {
                self.cursors.put(node, arc);
                break;
            }
        }
        self.excesses.put(node, excess);
    }

    /// Adds to the excess of a node.
    fn receive(&mut self, node: usize, amount: u64) {
        if node != SINK && self.excesses.at(node) == 0 {
            self.active.push(node);
        }
        self.excesses.add(node, amount);
    }

    /// Lifts a node just above the lowest one that it could push to. Gives how much was looked at.
    fn relabel(&mut self, node: usize) -> usize {
        let start = self.rows.start(node);
        let end = self.rows.end(node);
        let mut lowest = self.layers.nodes();
        let mut cursor = start;
        for arc in start..end {
            let label = self.layers.label(self.rows.target(arc)) + 1;
            if label < lowest && self.rows.room(arc) != 0 {
                lowest = label;
                cursor = arc;
            }
        }
        self.cursors.put(node, cursor);
        self.layers.lift(node, lowest);
        if self.layers.label(node) < self.layers.nodes() {
            self.active.push(node);
        }
        end.saturating_sub(start).saturating_add(12)
    }
}
