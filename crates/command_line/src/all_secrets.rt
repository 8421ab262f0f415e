ghost use Rattle.std.specs.Prelude.{◌≤◌};

use crate::guests::GuestWords;
use crate::settings::BoundSettings;

/// The words of a command that bounds the outputs of all secrets.
#[derive(Clone, Copy)]
pub struct AllSecretsWords<'a> {
    /// The guest.
    pub guest: GuestWords<'a>,
    /// The name of the cut file.
    pub cut: &'a str,
    /// The limits, the table of the mask rules, and what is wanted beside the bound.
    pub settings: BoundSettings,
    ghost few: { settings.budget ≤ 1048576 },
    ghost first: { 1 ≤ settings.table },
    ghost last: { settings.table ≤ 3 },
    ghost some: { 1 ≤ settings.paths },
    ghost most: { settings.paths ≤ 1048576 },
}
