//! A shadow whose memory begins at 0x10000: its labels are set and read as the rows say, and what is read is printed.

mod commands;
mod performing;

pub use shadow_masks::Shadow;
use std::alloc::Global;
use std::io;

/// The shadow, before the first row; None where memory is short.
pub fn shadow(alloc: Global) -> Option<Shadow> {
    Shadow::new(alloc, 0x10000).ok()
}

/// Performs the command of a row, and prints its answer.
pub fn follow(rt: &HostRuntime, shadow: Option<&mut Shadow>, row: &str) -> io::Result<()> {
    let Some(shadow) = shadow else {
        return println!(rt; "memory is short");
    };
    let Some(command) = commands::read_command(row) else {
        return println!(rt; "no command");
    };
    let answer = performing::perform(shadow, command);
    println!(rt; "{answer}")
}
