//! States of a masked walk that are kept exactly: between two turns, what a machine, a shadow and visits are. States
//! that share most of their bytes share them in memory, and a state can be found among many.
#![tactic(auto)]

mod bytes;
mod kept_states;
mod laids;
mod laying;
mod number_table;
mod pieces;
mod putting;
mod quiet_pages;
mod settling;
mod state_tables;

pub use kept_states::KeptState;
pub use laids::Laid;
pub use pieces::Pieces;
pub use state_tables::StateTable;
