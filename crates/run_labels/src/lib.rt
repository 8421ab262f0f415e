//! The labels of a measured run and the events that it adds to its graph, as definitions over the turns of the real run;
//! and why a run is not measured. The code that keeps labels stands above this crate.
#![tactic(auto)]

mod faults;
mod laws;

pub use faults::MeasureFault;
pub use laws::labelled_runs_are_real_runs;
