use crate::tables::Table;
use flow_base::NoMemory;
use std::alloc::Global;

/// A queue of nodes, each of which stands in it at most once.
#[derive(Drop)]
pub struct Queue {
    /// Where the nodes stand, in a ring.
    ring: Table,
    /// Where the first node stands.
    first: usize,
    /// Where the next node will stand.
    end: usize,
    count: usize,
}

impl Queue {
    /// An empty queue for so many nodes.
    pub fn new(alloc: Global, nodes: usize) -> Result<Queue, NoMemory> {
        Ok(Queue {
            ring: Table::filled(alloc, 0, nodes)?,
            first: 0,
            end: 0,
            count: 0,
        })
    }

    /// Takes each node out.
    pub fn clear(&mut self) {
        self.first = 0;
        self.end = 0;
        self.count = 0;
    }

    /// The place that follows one in the ring.
    fn after(&self, place: usize) -> usize {
        let next = place.saturating_add(1);
        if next < self.ring.items.len() {
            next
        } else {
            0
        }
    }

    /// Puts a node at the end.
    pub fn push(&mut self, node: usize) {
        self.ring.put(self.end, node);
        self.end = self.after(self.end);
        self.count = self.count.saturating_add(1);
    }

    /// Takes the first node out; None where there is none.
    pub fn pop(&mut self) -> Option<usize> {
        if self.count == 0 {
            return None;
        }
        let node = self.ring.at(self.first);
        self.first = self.after(self.first);
        self.count -= 1;
        Some(node)
    }
}
