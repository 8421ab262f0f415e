ghost use Rattle.std.specs.Prelude.{◌≡◌};
ghost use Rattle.every_secret.specs.Private.KeptPatterns.{pattern_of};

use crate::patterns::Pattern;
use flow_base::List;

/// A pattern as a key: the same bytes in vectors, which have a hash.
#[derive(PartialEq, Eq, Hash, Drop)]
pub(crate) struct KeptPattern {
    pub bytes: Vec<u8>,
    pub byte_masks: Vec<u8>,
    pub status: u8,
    pub status_mask: u8,
}

impl KeptPattern {
    /// The key of a pattern. It takes no memory.
    pub fn of(pattern: Pattern) -> KeptPattern
        ensures { pattern_of result ≡ pattern }
    {
        KeptPattern {
            bytes: pattern.bytes.into_vec(),
            status: pattern.status,
            byte_masks: pattern.byte_masks.into_vec(),
            status_mask: pattern.status_mask,
        }
    }

    /// The pattern of a key. It takes no memory.
    pub fn into_pattern(self) -> Pattern
        ensures { result ≡ pattern_of self }
    {
        Pattern {
            bytes: List::from_vec(self.bytes),
            status: self.status,
            byte_masks: List::from_vec(self.byte_masks),
            status_mask: self.status_mask,
        }
    }
}
