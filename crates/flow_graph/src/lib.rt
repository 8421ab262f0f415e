//! What a measured run adds to its graph, event by event, and the graph of a list of events: for each point the bits
//! that passed it, and the links along which they flowed.
#![tactic(auto)]

mod builders;
mod checking;
mod collapsing;
mod ends;
mod event_lists;
mod events;
mod finishing;
mod graphs;
mod link_orders;
mod named_links;
mod nodes;

pub use builders::{Builder, outlet};
pub use checking::joins_ends;
pub use collapsing::{graph_of, has_few_events};
pub use ends::{Arc, End};
pub use event_lists::EventList;
pub use events::{Event, Events};
pub use graphs::Graph;
pub use link_orders::links_are_ordered;
pub use named_links::{NamedEnd, NamedLink};
pub use nodes::Node;
