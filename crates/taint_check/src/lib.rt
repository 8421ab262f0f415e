//! A check with one machine: the real run of a secret with masks, which lose at each visit the bits that cross at a cut.
//! Where nothing is decided by a bit that is left, the secret is accepted with the bits that crossed.
#![tactic(auto)]

mod beginning;
mod checking;
mod clearing;
mod laws;
mod reasons;
mod turns;
mod verdicts;
mod whys;

pub use checking::{taint, taint_in};
pub use laws::{clean_secrets_are_accepted, verdicts_are_one};
pub use tracked_run::LabelledMemory;
pub use verdicts::TaintVerdict;
pub use whys::TaintWhy;
