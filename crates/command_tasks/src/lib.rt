//! What a command line and its files ask for: the files that a command wants are loaded in order, each within its limit,
//! and of them a task is read. The first file that is not loaded or is malformed refuses it.
#![tactic(auto)]

mod guests;
mod kinds;
mod layouts;
mod loads;
mod names;
mod reading;
mod refusals;
mod statuses;
mod tasks;
mod wants;

pub use guests::Guest;
pub use kinds::FileKind;
pub use loads::{Want, load_all};
pub use names::Name;
pub use reading::read_task;
pub use refusals::Refusal;
pub use statuses::Status;
pub use tasks::{AllSecretsTask, CheckTask, ManyRunsTask, RunTask, Task};
pub use wants::wants_of;
