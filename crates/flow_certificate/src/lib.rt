//! Certificates of maximum flows: a graph, a flow and a side as one text, and the test that a stranger makes of them.
#![tactic(auto)]

mod across;
mod adding;
mod balance;
mod certificates;
mod drafts;
mod end_names;
mod faults;
mod finishing;
mod following;
mod guessing;
mod laws;
mod line_reading;
mod line_texts;
mod lines;
mod making;
mod over;
mod ranges;
mod reading;
mod sums;
mod values;
mod verdicts;
mod verifying;
mod writing;

pub use certificates::Certificate;
pub use faults::FormFault;
pub use laws::texts_are_one;
pub use reading::read_certificate;
pub use verdicts::{CertFault, CertVerdict, Member};
pub use verifying::verify;
pub use writing::write_certificate;
