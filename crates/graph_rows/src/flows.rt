//! Solves the graph of each row, and prints its maximum flow and its least minimum side. What must be printed is what
//! networkx finds of the same graphs.

mod reading;
mod rows;

use std::io;

/// Solves the graph of a row, and prints what comes of it.
pub fn follow(rt: &HostRuntime, row: &str) -> io::Result<()> {
    match rows::row(rt.alloc(), row) {
        Ok(Some(row)) => println!(rt; "{row}"),
        Ok(None) => println!(rt; "no graph"),
        Err(_) => println!(rt; "memory is short"),
    }
}
