//! Guests that are made of a number, each with its secret: the program keeps a few bits of each byte of the secret and
//! writes the bytes.
#![tactic(auto)]

mod programs;
mod secrets;
#[cfg(test)]
mod tests;

pub use programs::image;
pub use secrets::secret;
