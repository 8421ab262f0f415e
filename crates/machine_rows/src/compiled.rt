//! Checks guests that gcc and clang made on secrets, and prints for each accepted run how many bytes it wrote and its
//! exit status. What must be printed is what another implementation of RV32IM found of the same guests.

mod runs;

use flow_base::DiskFiles;
use std::io;

/// Checks the guest of a row `PROGRAM CUT SECRET PUBLIC`, and prints what comes of it.
pub fn follow(rt: &HostRuntime, row: &str) -> io::Result<()> {
    let Some(run) = runs::parse(row) else {
        return println!(rt; "{row}: no run");
    };
    match runs::judged(rt.alloc(), &mut DiskFiles::new(*rt), &run) {
        Some((written, status)) => println!(rt; "{row}: output {written} status {status}"),
        None => println!(rt; "{row}: not accepted"),
    }
}
