//! What each call of a guest answers: numbers of calls, error answers, bytes that are inside guest memory, reads,
//! writes and the break. All is a function of numbers; nothing here takes memory.
#![tactic(auto)]

mod breaks;
mod kinds;
mod ranges;
mod reading;
mod writing;

pub use breaks::move_break;
pub use kinds::{BAD_ADDRESS, BAD_DESCRIPTOR, CallKind, UNKNOWN_CALL, call_kind};
pub use ranges::inside;
pub use reading::read_count;
pub use writing::{WriteCheck, write_check};
