use crate::lent_visits::LentVisits;
use crossing_bits::Bits;

/// The replay's side of a turn: at each visit the bits of the value under the mask are replaced by the next bits that
/// are left, and that value goes on.
#[derive(Drop)]
pub(crate) struct Replaying<'c> {
    pub masks: LentVisits<'c>,
    pub bits: Bits,
    /// How many bits the first mask that wanted more than were left wanted more; 0 where none did.
    pub missing: u8,
}
