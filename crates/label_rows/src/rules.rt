//! Compares the mask rules of books of three tables with a table that was made by brute force: prints each row that
//! does not agree, and at the end how many do.

mod agreeing;
mod books;
mod rows;
mod widest;

use std::io;

/// How many rows there were, and how many agreed.
#[derive(Clone, Copy)]
pub struct Rules {
    count: u64,
    agreed: u64,
}

impl Rules {
    /// None, before the first row.
    pub fn new() -> Rules {
        Rules {
            count: 0,
            agreed: 0,
        }
    }

    /// Prints a row where it does not agree.
    pub fn follow(&mut self, rt: &HostRuntime, row: &str) -> io::Result<()> {
        let count = self.count.saturating_add(1);
        self.count = count;
        match books::holds(row) {
            Some(true) => self.agreed = self.agreed.saturating_add(1),
            Some(false) => println!(rt; "line {count} has another mask")?,
            None => println!(rt; "line {count} is no row")?,
        }
        Ok(())
    }

    /// Prints how many rows there were, and how many agree.
    pub fn end(&self, rt: &HostRuntime) -> io::Result<()> {
        println!(rt; "{} rows, {} agree", self.count, self.agreed)
    }
}
