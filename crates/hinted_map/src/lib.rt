//! A map that keeps its entries in the order in which they came, and looks for a key first where the latest ones stand.
#![tactic(auto)]

mod maps;

pub use maps::HintedMap;
