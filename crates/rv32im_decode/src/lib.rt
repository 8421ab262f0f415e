//! Words and instructions of RV32IM, both ways, and what each operation computes.
#![tactic(auto)]

mod decoding;
mod encoding;
mod fields;
mod instructions;
mod kinds;
mod opcodes;
mod operations;

pub use decoding::decode;
pub use encoding::{encode, in_range};
pub use instructions::{BranchKind, ImmKind, Instr, LoadKind, OpKind, StoreKind};
pub use operations::{address, target, upper};
