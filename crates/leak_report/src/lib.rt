//! What is told of measured runs and of verdicts: the report of a run as text and as JSON, and the line of a secret.
#![tactic(auto)]

mod capacities;
mod json_reports;
mod reports;
mod verdict_lines;

pub use json_reports::report_json;
pub use reports::report_text;
pub use verdict_lines::{taken_line, verdict_line};
