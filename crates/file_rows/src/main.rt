//! Goes through the rows of four tables: program files, region files, certificates and sources. A line `table NAME`
//! comes before the rows of a table, and is printed.
#![tactic(auto)]

mod certificate;
mod elf;
mod region;
mod source;
mod tables;

use std::io;
use tables::Tables;

fn main(rt: HostRuntime) -> io::Result<()> {
    let mut tables = Tables::new();
    for line in rt.lines(rt.alloc()) {
        tables.follow(&rt, line?.as_str())?;
    }
    tables.end(&rt)
}
