use crate::preflow::{Preflow, SINK, SOURCE};
use crate::rows::Rows;
use crate::tables::{Amounts, Table};
use flow_base::NoMemory;
use std::alloc::Global;

/// How far a walk over the edges with flow has come with a node.
#[derive(Clone, Copy, PartialEq, Eq)]
enum Mark {
    /// The node is not visited yet.
    New,
    /// The node is on the walk.
    Open,
    /// What is reached from the node has been visited.
    Done,
}

/// A walk over the edges with flow, which cancels each circulation that it meets.
#[derive(Drop)]
struct Walk {
    marks: Vec<Mark>,
    /// For each node the arc to be looked at next.
    cursors: Table,
    /// The nodes of the walk, and their number.
    path: Table,
    depth: usize,
    /// The nodes that are done, each after those that its flow leads to, and their number.
    order: Table,
    done: usize,
}

impl Walk {
    fn new(alloc: Global, nodes: usize) -> Result<Walk, NoMemory> {
        Ok(Walk {
            marks: vec![in alloc; Mark::New; nodes]?,
            cursors: Table::filled(alloc, 0, nodes)?,
            path: Table::filled(alloc, 0, nodes)?,
            depth: 0,
            order: Table::filled(alloc, 0, nodes)?,
            done: 0,
        })
    }

    fn mark(&self, node: usize) -> Mark {
        if node < self.marks.len() {
            self.marks[node]
        } else {
            Mark::Done
        }
    }

    fn put_mark(&mut self, node: usize, mark: Mark) {
        if node < self.marks.len() {
            self.marks[node] = mark;
        }
    }

    /// Visits each node that is reached from this one.
    fn visit(&mut self, rows: &mut Rows, root: usize) {
        self.go_on(root);
        for _ in 0..u64::MAX {
            if self.depth == 0 {
                return;
            }
            let node = self.path.at(self.depth - 1);
            self.step(rows, node);
        }
    }

    /// Looks at the next arc of the walk's last node.
    fn step(&mut self, rows: &mut Rows, node: usize) {
        let arc = self.cursors.at(node);
        if node == SINK || arc >= rows.middle(node) {
            self.go_back(node);
            return;
        }
        if !rows.has_flow(arc) {
            self.cursors.put(node, arc + 1);
            return;
        }
        let target = rows.target(arc);
        match self.mark(target) {
            Mark::New => self.go_on(target),
            Mark::Open => self.cancel(rows, target),
            Mark::Done => self.cursors.put(node, arc + 1),
        }
    }

    /// Puts a node at the end of the walk.
    fn go_on(&mut self, node: usize) {
        self.put_mark(node, Mark::Open);
        self.path.put(self.depth, node);
        self.depth = self.depth.saturating_add(1);
    }

    /// Takes the last node of the walk out, which is done.
    fn go_back(&mut self, node: usize) {
        self.put_mark(node, Mark::Done);
        self.order.put(self.done, node);
        self.done = self.done.saturating_add(1);
        self.depth = self.depth.saturating_sub(1);
    }

    /// The arc that leads on from a place of the walk.
    fn arc_at(&self, place: usize) -> usize {
        self.cursors.at(self.path.at(place))
    }

    /// Takes away what circulates from a node of the walk to its end and back to the node. The walk ends then where the
    /// first edge has no flow any more.
    fn cancel(&mut self, rows: &mut Rows, node: usize) {
        let mut amount = u64::MAX;
        let mut first = self.depth;
        for place in (0..self.depth).rev() {
            amount = amount.min(rows.room_back(self.arc_at(place)));
            first = place;
            if self.path.at(place) == node {
                break;
            }
        }
        let mut end = self.depth;
        for place in first..self.depth {
            let arc = self.arc_at(place);
            let back = rows.twin(arc);
            rows.carry(back, amount);
            if end == self.depth && rows.room(back) == 0 {
                end = place;
            }
        }
        for place in end..self.depth {
            if place != end {
                let passed = self.path.at(place);
                self.put_mark(passed, Mark::New);
            }
        }
        self.depth = self.depth.min(end.saturating_add(1));
    }
}

/// Gives back the excess of a node over the edges that enter it.
fn give_back(rows: &mut Rows, excesses: &mut Amounts, node: usize) {
    let mut excess = excesses.at(node);
    for arc in rows.middle(node)..rows.end(node) {
        if excess == 0 {
            break;
        }
        let amount = excess.min(rows.room(arc));
        rows.carry(arc, amount);
        excesses.add(rows.target(arc), amount);
        excess -= amount;
    }
    excesses.put(node, excess);
}

/// Makes a flow of a preflow: cancels what circulates, and gives back what does not come to the sink.
pub fn make_flow(alloc: Global, preflow: &mut Preflow) -> Result<(), NoMemory> {
    let nodes = preflow.rows.nodes;
    let mut walk = Walk::new(alloc, nodes)?;
    for node in 0..nodes {
        walk.cursors.put(node, preflow.rows.start(node));
    }
    for node in 0..nodes {
        if walk.mark(node) == Mark::New {
            walk.visit(&mut preflow.rows, node);
        }
    }
    for index in 0..nodes {
        let node = walk.order.at(index);
        if node != SOURCE && node != SINK {
            give_back(&mut preflow.rows, &mut preflow.excesses, node);
        }
    }
    Ok(())
}
