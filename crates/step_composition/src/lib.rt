//! The law that the public parts of a step of the guest machine, an instruction's as a call's, make the step together.
#![tactic(auto)]

mod laws;

pub use laws::parts_compose;
