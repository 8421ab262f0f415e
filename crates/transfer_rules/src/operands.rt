//! The operands of a rule.

/// Two words and the secret bits of each: a bit of a mask is 1 where that bit of the word may depend on the secret.
#[derive(Clone, Copy)]
pub struct Operands {
    /// The first word.
    pub v1: u32,
    /// The secret bits of the first word.
    pub m1: u32,
    /// The second word.
    pub v2: u32,
    /// The secret bits of the second word.
    pub m2: u32,
}
