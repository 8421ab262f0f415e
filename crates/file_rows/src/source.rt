//! Assembles the source of each row of a table that another assembler of RV32IM made, or whose words or fault were found
//! by hand, and prints each row whose words or fault come out otherwise, and at the end how many agree.

mod agreeing;
mod rows;

use std::io;

/// How many sources there were, and how many agreed.
#[derive(Clone, Copy)]
pub struct Sources {
    count: u64,
    agreed: u64,
}

impl Sources {
    /// None, before the first row.
    pub fn new() -> Sources {
        Sources {
            count: 0,
            agreed: 0,
        }
    }

    /// Assembles the source of a row, and prints what comes out otherwise.
    pub fn follow(&mut self, rt: &HostRuntime, row: &str) -> io::Result<()> {
        let count = self.count.saturating_add(1);
        self.count = count;
        match rows::agrees(rt.alloc(), row) {
            Some(true) => self.agreed = self.agreed.saturating_add(1),
            Some(false) => println!(rt; "line {count} comes out otherwise")?,
            None => println!(rt; "line {count} is no row, or memory is short")?,
        }
        Ok(())
    }

    /// Prints how many sources there were, and how many agree.
    pub fn end(&self, rt: &HostRuntime) -> io::Result<()> {
        println!(rt; "{} sources, {} agree", self.count, self.agreed)
    }
}
