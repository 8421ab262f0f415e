//! The guest with regions: which turn it makes next, the entry, the leave and the skip of a region, what breaks one, and
//! the real run.
#![tactic(auto)]

mod address_marks;
mod breaks;
mod clearing;
mod entering;
mod giving;
mod guards;
mod kinds;
mod laws;
mod leaving;
mod limits;
mod marked;
mod observers;
mod pair_stops;
mod pairs;
mod real_turns;
mod skipping;

pub use address_marks::{AddressMarks, LentMarks};
pub use entering::enter_by;
pub use kinds::{GuestTurn, guest_turn};
pub use laws::{each_of_a_pair_is_handed_the_turn, monitors_tell_the_next_turn};
pub use leaving::leave_by;
pub use limits::OUTPUT_LIMIT;
pub use marked::MarkedRegions;
pub use observers::Observer;
pub use pair_stops::PairStop;
pub use pairs::Both;
pub use real_turns::{RealTurn, real_turn_by};
pub use skipping::skip_by;
