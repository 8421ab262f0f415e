//! Answers the rows of a table: what texts of cuts are read as, what files and sinks answer, what the calls of a guest
//! answer, how words and slots are written, what strings of bits give back, which graph events make, and how visits are
//! counted. What must be printed was found by hand.
#![tactic(auto)]

mod call_rows;
mod cut_rows;
mod cuts;
mod events;
mod graph_rows;
mod input;
mod store_rows;
mod string_rows;
mod texts;
mod visit_rows;
mod word_rows;

use graph_rows::Graphs;
use std::alloc::Global;
use std::io;
use store_rows::Stores;
use string_rows::Strings;
use visit_rows::Visits;

/// What rows before a row have left.
#[derive(Drop)]
struct Table {
    stores: Stores,
    strings: Strings,
    graphs: Graphs,
    visits: Visits,
}

impl Table {
    /// Prints the answer of a row to which those before it are something; whether it is one.
    fn print(&mut self, rt: &HostRuntime, name: &str, rest: &str) -> bool {
        self.stores.print(rt, name, rest)
            || self.strings.print(rt, name, rest)
            || self.graphs.print(rt, name, rest)
            || self.visits.print(rt, name, rest)
    }
}

/// Prints the answer of a row to which rows before it are nothing; whether it is one.
fn print_alone(rt: &HostRuntime, name: &str, rest: &str) -> bool {
    cut_rows::print(rt, name, rest)
        || word_rows::print(rt, name, rest)
        || call_rows::print(rt, name, rest)
}

/// Prints the answer of a row, whose name says which table it is of.
fn print(rt: &HostRuntime, table: &mut Table, row: &str) -> io::Result<()> {
    let (name, rest) = row.split_once(' ').unwrap_or((row, ""));
    if print_alone(rt, name, rest) || table.print(rt, name, rest) {
        return Ok(());
    }
    println!(rt; "no row, or memory is short: {row}")
}

/// What no rows have left; None where memory is short.
fn table_of(alloc: Global) -> Option<Table> {
    let stores = Stores::new(alloc)?;
    let strings = Strings::new(alloc)?;
    Some(Table {
        stores,
        strings,
        graphs: Graphs::new(alloc),
        visits: Visits::new(alloc),
    })
}

/// Prints the answer of a line, if it was read.
fn print_line(rt: &HostRuntime, table: &mut Table, line: io::Result<String>) -> io::Result<()> {
    print(rt, table, line?.as_str())
}

/// Prints the answers of all lines.
fn print_all(rt: &HostRuntime, table: &mut Table) -> io::Result<()> {
    for line in rt.lines(rt.alloc()) {
        print_line(rt, table, line)?;
    }
    Ok(())
}

fn main(rt: HostRuntime) -> io::Result<()> {
    match table_of(rt.alloc()) {
        Some(mut table) => print_all(&rt, &mut table),
        None => println!(rt; "memory is short"),
    }
}
