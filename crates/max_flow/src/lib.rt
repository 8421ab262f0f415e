//! A maximum flow of a graph of events and its least minimum side, and the laws of flows and sides.
#![tactic(auto)]

mod answers;
mod augmenting;
mod building;
mod chains;
mod deepening;
mod feasible;
mod laws;
mod layers;
mod limits;
mod networks;
mod preflow;
mod queues;
mod raising;
mod returning;
mod rows;
mod scanning;
mod searching;
mod sides;
mod solving;
mod tables;
mod warm_start;

pub use answers::{Flow, Half, Side, Solved};
pub use building::{head_number, tail_number};
pub use laws::{equal_is_best, no_flow_exceeds_a_side};
pub use limits::is_within_limits;
pub use solving::solve;
