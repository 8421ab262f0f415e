use crate::rules::Rules;
use crate::runs::{self, Guest};
use crate::shadows::{self, Shadow};
use std::alloc::Global;
use std::io;

/// A table by its name.
#[derive(Clone, Copy)]
enum Table {
    None,
    Tracked,
    Shadow,
    Rule,
}

/// The table whose rows come next, and what its rows go on with.
#[derive(Drop)]
pub struct Tables {
    table: Table,
    guest: Guest,
    shadow: Option<Shadow>,
    rules: Rules,
}

/// The table of a name.
fn table_of(name: &str) -> Table {
    match name {
        "tracked" => Table::Tracked,
        "shadow" => Table::Shadow,
        "rule" => Table::Rule,
        _ => Table::None,
    }
}

impl Tables {
    /// The tables, before the first line.
    pub fn new(alloc: Global) -> Tables {
        Tables {
            table: Table::None,
            guest: Guest::new(alloc),
            shadow: shadows::shadow(alloc),
            rules: Rules::new(),
        }
    }

    /// Does what a line says, and prints what comes of it.
    pub fn follow(&mut self, rt: &HostRuntime, line: &str) -> io::Result<()> {
        if let Some(name) = line.strip_prefix("table ") {
            self.table = table_of(name);
            return println!(rt; "table {name}");
        }
        match self.table {
            Table::Tracked => runs::follow(rt, &mut self.guest, line),
            Table::Shadow => shadows::follow(rt, self.shadow.as_mut(), line),
            Table::Rule => self.rules.follow(rt, line),
            Table::None => println!(rt; "no row of a table"),
        }
    }

    /// Prints what comes of all rows.
    pub fn end(&self, rt: &HostRuntime) -> io::Result<()> {
        self.rules.end(rt)
    }
}
