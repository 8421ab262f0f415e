ghost use Rattle.std.specs.Prelude.{◌≡◌, ◌^◌, ◌<◌, slice_index};

use flow_base::NoMemory;
use std::alloc::Global;

/// Numbers below 2^32 by index, in half the room of a list of `usize`.
#[derive(Drop)]
pub struct Table {
    pub items: Vec<u32>,
}

impl Table {
    /// A table that has a number so many times.
    pub fn filled(alloc: Global, number: u32, count: usize) -> Result<Table, NoMemory> {
        let items = vec![in alloc; number; count]?;
        Ok(Table { items })
    }

    /// The number at an index; 0 past the end.
    pub fn at(&self, index: usize) -> usize
        ensures value { result ≡ slice_index self.now.items.items index }
        ensures small { result < 2 ^ 32 }
    {
        if index < self.items.len() {
            self.items[index] as usize
        } else {
            0
        }
    }

    /// Writes a number at an index. It does nothing past the end, or where the number is 2^32 or more.
    pub fn put(&mut self, index: usize, number: usize) {
        if index < self.items.len() && number <= 0xffff_ffff {
            self.items[index] = number as u32;
        }
    }

    /// Writes a number at each index.
    pub fn fill(&mut self, number: u32) {
        self.items.fill(number);
    }
}

/// Amounts by index.
#[derive(Drop)]
pub struct Amounts {
    pub items: Vec<u64>,
}

impl Amounts {
    /// So many amounts of 0.
    pub fn zeros(alloc: Global, count: usize) -> Result<Amounts, NoMemory> {
        let items = vec![in alloc; 0; count]?;
        Ok(Amounts { items })
    }

    /// The amount at an index; 0 past the end.
    pub fn at(&self, index: usize) -> u64
        ensures { result ≡ slice_index self.now.items.items index }
    {
        if index < self.items.len() {
            self.items[index]
        } else {
            0
        }
    }

    /// Writes an amount at an index; past the end it does nothing.
    pub fn put(&mut self, index: usize, amount: u64) {
        if index < self.items.len() {
            self.items[index] = amount;
        }
    }

    /// Adds an amount at an index, at most to what a number can hold.
    pub fn add(&mut self, index: usize, amount: u64) {
        let sum = self.at(index).saturating_add(amount);
        self.put(index, sum);
    }

    /// Takes an amount away at an index, at most all of it.
    pub fn take(&mut self, index: usize, amount: u64) {
        let rest = self.at(index).saturating_sub(amount);
        self.put(index, rest);
    }
}

/// Where an arc leads, and the other arc of its edge.
#[derive(Clone, Copy)]
pub struct Ends {
    target: u32,
    twin: u32,
}

/// The ends of arcs by index.
#[derive(Drop)]
pub struct Arcs {
    pub items: Vec<Ends>,
}

impl Arcs {
    /// So many arcs that lead to node 0.
    pub fn unset(alloc: Global, count: usize) -> Result<Arcs, NoMemory> {
        let items = vec![in alloc; Ends { target: 0, twin: 0 }; count]?;
        Ok(Arcs { items })
    }

    /// The node that an arc leads to; 0 past the end.
    pub fn target(&self, arc: usize) -> usize
        ensures { result < 2 ^ 32 }
    {
        if arc < self.items.len() {
            self.items[arc].target as usize
        } else {
            0
        }
    }

    /// The other arc of an arc's edge; 0 past the end.
    pub fn twin(&self, arc: usize) -> usize
        ensures { result < 2 ^ 32 }
    {
        if arc < self.items.len() {
            self.items[arc].twin as usize
        } else {
            0
        }
    }

    /// Writes the ends of an arc. It does nothing past the end, or where a number is 2^32 or more.
    pub fn put(&mut self, arc: usize, target: usize, twin: usize) {
        if arc < self.items.len() && target <= 0xffff_ffff && twin <= 0xffff_ffff {
            self.items[arc] = Ends {
                target: target as u32,
                twin: twin as u32,
            };
        }
    }
}
