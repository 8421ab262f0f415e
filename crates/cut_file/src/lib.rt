//! Cuts as texts of two versions: which bits of which values of a run cross, read from a text and written as one; the
//! mask at a visit, and lists of masks folded to patterns.
#![tactic(auto)]

mod copies;
mod cuts;
mod drafts;
mod faults;
mod folding;
mod laws;
mod line_forms;
mod line_words;
mod lines;
mod masks;
mod migrating;
mod points;
mod reading;
mod words;
mod writing;

pub use cuts::Cut;
pub use faults::CutFault;
pub use folding::fold;
pub use laws::{
    faults_are_first, folds_keep_masks, masks_are_of_their_points, texts_are_one, texts_are_short,
};
pub use masks::mask_at;
pub use migrating::migrate;
pub use points::{CutPoint, Run};
pub use reading::read_cut;
pub use writing::write_cut;
