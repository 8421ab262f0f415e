//! Cuts that cover a run: the cut of a run and a side of its graph, what it is that a cut covers a run, and the laws: a
//! covered run is accepted, and so a measured one with its cut and with the fold of it; least sides and cuts are small;
//! points are passed seldom.
#![tactic(auto)]

mod graph_laws;
mod inputs;
mod laws;
mod secret_laws;
mod visit_laws;

pub use graph_laws::{
    cuts_of_runs_cover, cuts_of_runs_cross, guests_stay_guests, sides_are_closed_for_events,
    sides_are_closed_for_links,
};
pub use inputs::{tell_cut, tell_inputs};
pub use laws::{
    covered_runs_are_accepted, cuts_have_few_runs, folded_cuts_are_accepted,
    measured_runs_are_accepted, turns_are_proper,
};
pub use secret_laws::{least_sides_are_small, runs_read_their_secret};
pub use visit_laws::{
    outputs_have_their_visits, runs_fit_cuts, runs_pass_known_slots, runs_visit_points_seldom,
};
