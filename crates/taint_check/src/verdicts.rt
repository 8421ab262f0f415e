use crate::whys::TaintWhy;
use crossing_bits::Bits;
use flow_base::Output;

/// The verdict of a check with one machine on one secret.
#[derive(Drop)]
pub enum TaintVerdict {
    /// Nothing is decided by a bit that may depend on the secret and has not crossed: the bits that crossed, and the
    /// output of the run.
    Clean { bits: Bits, output: Output },
    /// It is not known whether the secret is accepted, for this reason.
    Unclear(TaintWhy),
}
