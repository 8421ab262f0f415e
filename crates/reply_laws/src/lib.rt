//! The laws of replies: words and files have one reply, and files that are well formed have the status that they should.
#![tactic(auto)]

mod laws;

pub use laws::{replies_are_complete, replies_are_one};
