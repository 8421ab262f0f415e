ghost use Rattle.std.specs.Prelude.{◌≡◌};
ghost use Rattle.tracked_run.specs.Labels.{clean_held};

use shadow_masks::Label;

/// The labels of the two operands that have gone on in a turn.
#[derive(Clone, Copy)]
pub struct Held {
    pub first: Label,
    pub second: Label,
}

impl Held {
    /// A turn begins with no operand.
    pub fn none() -> Held
        ensures { result ≡ clean_held }
    {
        Held {
            first: Label::clean(),
            second: Label::clean(),
        }
    }
}
