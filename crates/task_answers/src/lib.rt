//! What a task is answered by: secrets are judged, the outputs of all secrets bounded, runs measured and told of, and
//! files written in another form. The answer is a status and the whole text, or why a run is refused.
#![tactic(auto)]

mod answered_tasks;
mod books;
mod bound_lines;
mod bounding;
mod finding;
mod judging;
mod learning;
mod lent_tasks;
mod limits;
mod many;
mod measured_runs;
mod replies;
mod telling;
mod texts;
mod trials;
mod verdicts;

pub use answered_tasks::answer_task;
pub use replies::{Reply, reply_of};
