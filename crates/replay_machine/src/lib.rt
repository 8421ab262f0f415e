//! The replay of a program: a run that never sees the secret, and is given the bits that cross.
#![tactic(auto)]

mod copies;
mod cursors;
mod cut_tables;
mod entries;
mod equality;
mod lent_visits;
mod marks;
mod outsides;
mod playing;
mod replay;
mod replay_turns;
mod replaying;
mod replays;
mod search;
mod turns;

pub use cut_tables::CutTable;
pub use entries::{outside_at_entry, skip_or_enter};
pub use lent_visits::LentVisits;
pub use marks::Mark;
pub use outsides::Outside;
pub use replay::Replay;
pub use turns::ReplayTurn;
