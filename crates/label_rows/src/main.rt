//! Goes through the rows of three tables: the events of measured runs, labels set and read, and the mask rules. A line
//! `table NAME` comes before the rows of a table, and is printed.
#![tactic(auto)]

mod rules;
mod runs;
mod shadows;
mod tables;

use std::io;
use tables::Tables;

/// Goes through the rows of all tables.
fn follow_all(rt: &HostRuntime, tables: &mut Tables) -> io::Result<()> {
    for line in rt.lines(rt.alloc()) {
        tables.follow(rt, line?.as_str())?;
    }
    tables.end(rt)
}

fn main(rt: HostRuntime) -> io::Result<()> {
    let mut tables = Tables::new(rt.alloc());
    follow_all(&rt, &mut tables)
}
