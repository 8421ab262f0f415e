//! Judges the certificate file that each row names, and prints its verdict. What must be printed is what another
//! implementation of the format and of its table of refusals found of the same files.

mod judging;

use flow_base::{DiskFiles, Files};
use judging::verdict_on;
use std::io;

/// How many bytes a certificate may have: 64 MiB.
const FILE_LIMIT: u32 = 67_108_864;

/// Judges the file that a row names, and prints what comes of it.
pub fn follow(rt: &HostRuntime, row: &str) -> io::Result<()> {
    let Ok(file) = DiskFiles::new(*rt).load(rt.alloc(), row, FILE_LIMIT) else {
        return println!(rt; "{row}: no file");
    };
    match verdict_on(rt.alloc(), file.as_slice()) {
        Ok(verdict) => println!(rt; "{row}: {verdict}"),
        Err(fault) => println!(rt; "{row}: {fault}"),
    }
}
