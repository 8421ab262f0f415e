//! The least declaration of the regions of one run: what the instructions inside each region write, as regions that the
//! run does not break; and regions as the text of a region file.
#![tactic(auto)]

mod bits;
mod byte_marks;
mod checks;
mod declarations;
mod faults;
mod laws;
mod learning;
mod notes;
mod pages;
mod runs;
mod spans;
mod turns;
mod writing;

pub use faults::LearnFault;
pub use laws::declarations_are_one;
pub use learning::learn;
pub use writing::write_regions;
