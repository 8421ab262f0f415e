//! Runs the machine on each case of a table that another implementation of RV32IM made, and prints each case that
//! comes out otherwise, and at the end how many agree.

mod cases;
mod trials;

use rv32im_machine::Machine;
use std::alloc::Global;
use std::io;

/// The machine of all cases, where there was enough memory for it, and how many cases there were and agreed.
#[derive(Drop)]
pub struct Steps {
    machine: Option<Machine>,
    count: u64,
    agreed: u64,
}

impl Steps {
    /// The machine, before the first case.
    pub fn new(alloc: Global) -> Steps {
        Steps {
            machine: trials::guest(alloc),
            count: 0,
            agreed: 0,
        }
    }

    /// Runs the case of a row, and prints what comes out otherwise.
    pub fn follow(&mut self, rt: &HostRuntime, row: &str) -> io::Result<()> {
        let count = self.count.saturating_add(1);
        self.count = count;
        let Some(machine) = self.machine.as_mut() else {
            return println!(rt; "no guest");
        };
        let Some(case) = cases::parse(row) else {
            return println!(rt; "line {count} is no case");
        };
        let (mode, found) = trials::run(machine, &case);
        if trials::agrees(mode, found, &case) {
            self.agreed = self.agreed.saturating_add(1);
            return Ok(());
        }
        println!(rt; "line {count}: {mode:?}, {found}, and not {}", case.after)
    }

    /// Prints how many cases there were, and how many agree.
    pub fn end(&self, rt: &HostRuntime) -> io::Result<()> {
        println!(rt; "{} cases, {} agree", self.count, self.agreed)
    }
}
