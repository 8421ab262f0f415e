use crate::source::Sources;
use crate::{certificate, elf, region};
use std::io;

/// A table by its name.
#[derive(Clone, Copy)]
enum Table {
    None,
    Elf,
    Region,
    Certificate,
    Asm,
}

/// The table whose rows come next, and what its rows go on with.
#[derive(Clone, Copy)]
pub struct Tables {
    table: Table,
    sources: Sources,
}

/// The table of a name.
fn table_of(name: &str) -> Table {
    match name {
        "elf" => Table::Elf,
        "region" => Table::Region,
        "certificate" => Table::Certificate,
        "asm" => Table::Asm,
        _ => Table::None,
    }
}

impl Tables {
    /// The tables, before the first line.
    pub fn new() -> Tables {
        Tables {
            table: Table::None,
            sources: Sources::new(),
        }
    }

    /// Does what a line says, and prints what comes of it.
    pub fn follow(&mut self, rt: &HostRuntime, line: &str) -> io::Result<()> {
        if let Some(name) = line.strip_prefix("table ") {
            self.table = table_of(name);
            return println!(rt; "table {name}");
        }
        match self.table {
            Table::Elf => elf::follow(rt, line),
            Table::Region => region::follow(rt, line),
            Table::Certificate => certificate::follow(rt, line),
            Table::Asm => self.sources.follow(rt, line),
            Table::None => println!(rt; "no row of a table"),
        }
    }

    /// Prints what comes of all rows.
    pub fn end(&self, rt: &HostRuntime) -> io::Result<()> {
        self.sources.end(rt)
    }
}
