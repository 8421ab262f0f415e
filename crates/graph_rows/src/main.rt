//! Goes through the rows of two tables: graphs that are solved, and events that are collapsed to a graph. A line
//! `table NAME` comes before the rows of a table, and is printed. With three words, which are numbers of points, of links
//! and of events, it collapses so many events over as many points and links instead.
#![tactic(auto)]

mod collapses;
mod flows;
mod words;

use std::io;
use std::io::{BufRead, BufReader};
use words::numbers_of;

/// A table by its name.
#[derive(Clone, Copy)]
enum Table {
    None,
    Flow,
    Collapse,
}

/// The table of a name.
fn table_of(name: &str) -> Table {
    match name {
        "flow" => Table::Flow,
        "collapse" => Table::Collapse,
        _ => Table::None,
    }
}

/// Does what a line says, and prints what comes of it.
fn follow(rt: &HostRuntime, table: &mut Table, line: &str) -> io::Result<()> {
    if let Some(name) = line.strip_prefix("table ") {
        *table = table_of(name);
        return println!(rt; "table {name}");
    }
    match *table {
        Table::Flow => flows::follow(rt, line),
        Table::Collapse => collapses::follow(rt, line),
        Table::None => println!(rt; "no row of a table"),
    }
}

/// Goes through the rows.
fn follow_all(rt: &HostRuntime) -> io::Result<()> {
    let mut table = Table::None;
    let reader = BufReader::new(rt.alloc(), rt.reader())?;
    for line in reader.lines(rt.alloc()) {
        follow(rt, &mut table, line?.as_str())?;
    }
    Ok(())
}

fn main(rt: HostRuntime) -> io::Result<()> {
    let Some(numbers) = numbers_of(&rt, rt.alloc()) else {
        return println!(rt; "the words are no numbers");
    };
    match numbers.as_slice() {
        [points, links, events] => collapses::print_load(&rt, *points, *links, *events),
        _ => follow_all(&rt),
    }
}
