//! The texts for people that no answer of a command is: the help, the version, what is wrong with words that are no
//! command line, and what another answer than the plain one means and what to change.
#![tactic(auto)]

mod adding;
mod asking;
mod complaints;
mod endings;
mod explanations;
mod file_meanings;
mod findings;
mod form_table;
mod forms;
mod meanings;
mod named_cuts;
mod naming;
mod notes;
mod parsers;
mod refusals;
mod run_meanings;

pub use asking::{help, text_asked};
pub use complaints::complaint;
pub use explanations::explanation;
pub use named_cuts::{CutNames, cut_names, other_cut_note};
