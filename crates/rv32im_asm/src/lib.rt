//! An assembler of RV32IM: sources to images, and images to listings.
#![tactic(auto)]

mod assembling;
mod cutting;
mod fault;
mod first_words;
mod forms;
mod labels;
mod lines;
mod listing;
mod meanings;
mod mnemonics;
mod numbers;
mod pieces;
mod places;
mod placing;
mod statements;
mod texts;

pub use assembling::assemble;
pub use fault::{AsmFault, LineKind};
pub use listing::list;
pub use texts::instr_text;
