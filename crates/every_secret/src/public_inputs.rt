ghost use Rattle.std.specs.Prelude.{◌≡◌};
ghost use Rattle.every_secret.specs.Masked.{is_public_byte as is_public_byte_at};
ghost use Rattle.every_secret.specs.Rules.{public_mask as mask_of_public};

use rv32im_machine::{Place, Source};

/// What is known of the public input.
#[derive(Clone, Copy)]
pub enum PublicInput {
    /// Its bytes.
    Given,
    /// How many bytes it has; whatever they are, the answer holds.
    Any,
}

/// The mask of a byte of the public input that is read.
#[inline(always)]
pub(crate) fn public_mask(public: PublicInput) -> u32
    ensures { result ≡ mask_of_public public }
{
    match public {
        PublicInput::Given => 0,
        PublicInput::Any => 255,
    }
}

/// Whether what is moved there from there is a byte of the public input, in a turn that may be the skip of a region.
#[inline(always)]
pub(crate) fn is_public_byte(place: Place, source: Source, skipped: bool) -> bool
    ensures { result ≡ is_public_byte_at place source skipped }
{
    match (place, source) {
        (Place::Byte(_), Source::Constant(_)) => !skipped,
        _ => false,
    }
}
