//! The graph of events, as they come: points with their capacities in the order in which they are first seen, and the
//! links by the names of their ends, up to the limits of a graph. No event is kept.
#![tactic(auto)]

mod adding;
mod collapses;
mod faults;
mod kept_links;
mod kept_points;
mod laws;
mod sorting;

pub use collapses::Collapse;
pub use faults::CollapseFault;
#[doc(hidden)]
pub use kept_links::KeptLinks;
#[doc(hidden)]
pub use kept_points::KeptPoints;
pub use laws::{graphs_exceed, more_events_exceed};
