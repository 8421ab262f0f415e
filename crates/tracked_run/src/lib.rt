//! A measured run: the real run, turn by turn, with a label for each of its registers and bytes, and the events that it
//! adds to its graph handed on as they come.
#![tactic(auto)]

mod again;
mod changes;
mod held;
mod labelled_memory;
mod linking;
mod noting;
mod outcomes;
mod passing_masks;
mod placing;
mod rule_answers;
mod source_masks;
mod tracked;
mod tracking;
mod turns;

pub use changes::{note_move, note_restore, note_save};
pub use held::Held;
pub use labelled_memory::LabelledMemory;
pub use outcomes::{Spent, TrackedTurn};
pub use passing_masks::work_mask;
pub use placing::{labelled, put_aimed};
pub use rule_answers::answer_of;
pub use source_masks::{SourceMasks, masks_of_sources};
pub use tracked::Tracked;
pub use turns::entered_number;
