//! Strings of bits that are pushed and taken under masks, and the laws of whoever asks for bits.
#![tactic(auto)]

mod laws;
mod masks;
mod strings;
mod texts;

pub use laws::{
    at_most_two_to_the_k, kraft_inequality, no_longer_string, outputs_are_few, patched_words_agree,
    pushed_bits_return, used_strings_are_prefix_free,
};
pub use masks::bit_count;
pub use strings::Bits;
