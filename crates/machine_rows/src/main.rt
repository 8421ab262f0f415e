//! Goes through the rows of three tables: single steps of the machine, where replays and machines stand after so many
//! turns, and guests that compilers made. A line `table NAME` comes before the rows of a table, and is printed.
#![tactic(auto)]

mod compiled;
mod replays;
mod steps;
mod tables;

use std::io;
use tables::Tables;

fn main(rt: HostRuntime) -> io::Result<()> {
    let mut tables = Tables::new(rt.alloc());
    for line in rt.lines(rt.alloc()) {
        tables.follow(&rt, line?.as_str())?;
    }
    tables.end(&rt)
}
