//! The labels of a measured run: which bits of its registers and bytes the secret may reach, and where those bits last
//! passed. A shadow is a map from registers and addresses to labels, whose default is the clean label.
#![tactic(auto)]

mod each_point;
mod few_points;
mod labels;
mod laws;
mod mask_pieces;
mod page_points;
mod page_slots;
mod pages;
mod shadows;

pub use labels::Label;
pub use laws::shadow_reads_as_a_map;
pub use shadows::Shadow;
