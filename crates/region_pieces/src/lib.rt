//! How a region is shown to hold: it is run from its entry to its leave on pieces, each of which stands for many real
//! states. Either every real state that agrees with the entry outside its masks comes to the leave and breaks nothing, and
//! then it is known in how many turns and with which outputs, or it is said where that was not shown.
#![tactic(auto)]

mod addresses;
mod deciding;
mod ending_lists;
mod entries;
mod fronts;
mod hold_faults;
mod holding;
mod joining;
mod jumping;
pub mod laws;
mod leaving;
mod loading;
mod memories;
mod naming;
mod outcomes;
mod pages;
mod pieces;
mod storing;
mod turns;
mod vectors;

pub use ending_lists::Endings;
pub use hold_faults::HoldFault;
pub use holding::{Holding, Shown, hold};
