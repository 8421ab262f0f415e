//! Two machines in lockstep: the real run on a secret beside a replay that never sees it, with regions of which a cut
//! may skip some, the verdict on the secret, and the laws of acceptance and of the bound.
#![tactic(auto)]

mod differences;
mod laws;
mod lent_tasks;
mod lockstep;
mod marks;
mod memories;
mod replay_turns;
mod rounds;
mod tallies;
mod two_runs;
mod verdicts;

pub use laws::{accepted_runs_are_bounded, verdicts_are_acceptance};
pub use lent_tasks::LentTask;
pub use lockstep::Lockstep;
pub use memories::Memories;
pub use tallies::Tallying;
pub use verdicts::{ReplayStop, Verdict, Why};
