//! The measurement of several runs of one program together: one graph of all of them, its maximum flow, and one cut with
//! which each of the runs is accepted.
#![tactic(auto)]

mod faults;
mod following_all;
mod joining;
mod laws;
mod links;
mod many;
mod measuring_all;
mod points;
mod uniting;
mod weighing_all;

pub use faults::ManyFault;
pub use laws::measured_together_have_no_cause;
pub use many::Many;
pub use measuring_all::measure_all;
