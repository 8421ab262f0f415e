//! Enclosure regions: pieces of a program whose writes are declared, read from a file; what breaks one; and a monitor of
//! a run that says where it enters and leaves them and whether it breaks what they declare.
#![tactic(auto)]

mod break_kinds;
mod copying;
mod file_laws;
mod item_lists;
mod monitors;
mod object_keys;
mod orders;
mod range_items;
mod ranges_of_regions;
mod reading;
mod region_checks;
mod region_faults;
mod region_files;
mod region_items;
mod region_lists;
mod region_parts;
mod shapes;
mod turn_kinds;
mod turning;
mod words;

pub use break_kinds::{Break, Place};
pub use copying::copy_regions;
pub use file_laws::region_files_are_one;
pub use monitors::Monitor;
pub use ranges_of_regions::{first_outside, range_start};
pub use region_checks::{broken_at_entry, broken_at_leave, written_byte, written_register};
pub use region_faults::RegionFault;
pub use region_files::read_regions;
pub use region_lists::Regions;
pub use region_parts::{Range, Region};
pub use turn_kinds::TurnKind;
