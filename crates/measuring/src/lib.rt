//! The measurement of one run: how many bits of the secret can have flowed to what is seen of the run, as the maximum
//! flow of the graph of its events, and the cut at which they cross.
#![tactic(auto)]

mod accepting;
mod counter_places;
mod counter_rows;
mod counting;
mod cut_points;
mod cutting;
mod following;
mod kept_visits;
mod laws;
mod measured;
mod point_visits;
mod recordings;
mod setups;
mod splitting;
mod visit_counts;
mod weighing;

pub use accepting::measure;
#[doc(hidden)]
pub use counter_rows::Row;
#[doc(hidden)]
pub use cutting::cut_of;
#[doc(hidden)]
pub use following::{Exit, RunEnd, follow, follow_in};
#[doc(hidden)]
pub use kept_visits::KeptVisits;
pub use laws::measured_runs_have_no_cause;
pub use measured::Measured;
#[doc(hidden)]
pub use point_visits::{PointVisits, VisitRun};
#[doc(hidden)]
pub use recordings::Recording;
pub use run_labels::MeasureFault;
#[doc(hidden)]
pub use setups::Setup;
#[doc(hidden)]
pub use tracked_run::LabelledMemory;
#[doc(hidden)]
pub use visit_counts::VisitCounts;
