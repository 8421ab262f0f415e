//! The guest machine of RV32IM: its states, the language of one turn, a row for each instruction, and one walker of
//! turns that hands each value that passes to whoever is interested in it. The parts of a step can be asked one by one.
#![tactic(auto)]

mod calls;
mod guest_memory;
mod jumps;
mod language;
mod laws;
mod loads_stores;
mod machines;
mod operands;
mod parts;
mod passing;
mod plain;
mod plans;
mod regions;
mod results;
mod sparse_bytes;
mod standing;
mod starting;
mod stepping;
mod walker;

pub use guest_memory::{GuestMemory, PIECES};
pub use language::{Aim, Operation, Part, Passing, Place, Seen, Shape, Source, Sources, Work};
pub use laws::{ended_machines_stand_still, next_follows_the_step};
pub use machines::Machine;
pub use passing::Passer;
pub use plain::Plain;
pub use sparse_bytes::PIECE_SIZE;
pub use standing::Standing;
pub use stepping::{Arguments, CallPlan, Fault, Stepped};
pub use walker::turn_by;
