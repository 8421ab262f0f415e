//! What several answers print. Each function answers whether all of it was printed.

use cut_file::{Cut, write_cut};
use flow_base::{Sink, StandardOut};

/// Prints bytes.
pub fn put(rt: &HostRuntime, bytes: &[u8]) -> bool {
    StandardOut::new(*rt).put(bytes).is_ok()
}

/// Prints bits as 0 and 1.
pub fn put_bits(rt: &HostRuntime, bits: &[bool]) -> bool {
    for bit in bits {
        if print!(rt; "{}", u8::from(*bit)).is_err() {
            return false;
        }
    }
    true
}

/// Prints the text of a cut.
pub fn put_cut(rt: &HostRuntime, cut: &Cut) -> bool {
    match write_cut(rt.alloc(), cut) {
        Ok(text) => put(rt, text.as_slice()),
        Err(_) => false,
    }
}
