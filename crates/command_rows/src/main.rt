//! Answers the command lines of tables over files and a sink in memory, and prints the name of each row whose status,
//! loads or text are not those that the row says, and how many rows there are.
#![tactic(auto)]

mod answering;
mod books;
mod tables;

use answering::is_answered;
use std::io;
use std::process::ExitCode;
use tables::{Row, TABLES};

/// Prints the name of each row that is not answered as it says, or for which memory is short; whether there is none.
fn print_unlike(rt: &HostRuntime, rows: &[Row]) -> io::Result<bool> {
    let mut all = true;
    for row in rows {
        if !is_answered(rt.alloc(), row).unwrap_or(false) {
            println!(rt; "{}", row.name)?;
            all = false;
        }
    }
    Ok(all)
}

/// Prints the rows that are not answered as they say, and how many rows there are; whether all are.
fn print_rows(rt: &HostRuntime) -> io::Result<bool> {
    let mut all = true;
    let mut count: usize = 0;
    for rows in TABLES {
        all = print_unlike(rt, rows)? && all;
        count = count.saturating_add(rows.len());
    }
    println!(rt; "{count} rows")?;
    Ok(all)
}

fn main(rt: HostRuntime) -> ExitCode {
    match print_rows(&rt) {
        Ok(true) => ExitCode::from(0),
        _ => ExitCode::from(1),
    }
}
