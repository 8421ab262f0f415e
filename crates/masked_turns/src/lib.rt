//! Masks beside a machine: which bits of each register and byte may differ in another run that crosses at a cut with the
//! same bits. They follow each value of a turn, whatever the machine is, and lose the bits that cross.
#![tactic(auto)]

mod clearing;
mod looking;
mod uses;

pub use clearing::{aimed_mask, earlier_left, left_bits, note_cleared, uncrossed};
pub use looking::{earlier_look, secret_look};
pub use uses::{LeftBits, SecretLook};
