//! What a command line is: the command that its words name, with the names of its files and its numbers, or none.
#![tactic(auto)]

mod all_secrets;
mod all_secrets_rows;
mod check_rows;
mod checks;
mod commands;
mod guests;
mod judgings;
mod learn_rows;
mod names;
mod numbers;
mod option_words;
mod parts;
mod run_rows;
mod runs;
mod settings;
mod settings_rows;
mod tellings;

pub use all_secrets::AllSecretsWords;
pub use checks::CheckWords;
pub use commands::{CommandWords, command_line};
pub use guests::GuestWords;
pub use judgings::Judging;
pub use names::CommandName;
#[doc(hidden)]
pub use option_words::OptionWord;
#[doc(hidden)]
pub use parts::Parts;
pub use runs::{ManyRunsWords, RunWords};
pub use settings::{BoundSettings, CheckSettings, RunSettings};
pub use tellings::Telling;
