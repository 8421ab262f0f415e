use crate::compiled;
use crate::replays::{self, Guest};
use crate::steps::Steps;
use std::alloc::Global;
use std::io;

/// A table by its name.
#[derive(Clone, Copy)]
enum Table {
    None,
    Step,
    Replay,
    Compiled,
}

/// The table whose rows come next, and what its rows go on with.
#[derive(Drop)]
pub struct Tables {
    table: Table,
    steps: Steps,
    guest: Guest,
}

/// The table of a name.
fn table_of(name: &str) -> Table {
    match name {
        "step" => Table::Step,
        "replay" => Table::Replay,
        "compiled" => Table::Compiled,
        _ => Table::None,
    }
}

impl Tables {
    /// The tables, before the first line.
    pub fn new(alloc: Global) -> Tables {
        Tables {
            table: Table::None,
            steps: Steps::new(alloc),
            guest: Guest::new(alloc),
        }
    }

    /// Does what a line says, and prints what comes of it.
    pub fn follow(&mut self, rt: &HostRuntime, line: &str) -> io::Result<()> {
        if let Some(name) = line.strip_prefix("table ") {
            self.table = table_of(name);
            return println!(rt; "table {name}");
        }
        match self.table {
            Table::Step => self.steps.follow(rt, line),
            Table::Replay => replays::follow(rt, &mut self.guest, line),
            Table::Compiled => compiled::follow(rt, line),
            Table::None => println!(rt; "no row of a table"),
        }
    }

    /// Prints what comes of all rows.
    pub fn end(&self, rt: &HostRuntime) -> io::Result<()> {
        self.steps.end(rt)
    }
}
