//! The answer to a command line: its files are loaded, what it asks for is read of them and made, and one text is put,
//! with a status.
#![tactic(auto)]

mod answering;
mod top;

pub use top::flowcheck;
