ghost use Rattle.std.specs.Prelude.{◌≤◌, IsTrue};
ghost use Rattle.command_line.specs.CommandLines.{has_table};

use crate::guests::GuestWords;
use crate::settings::CheckSettings;
use flow_base::List;

/// The words that name secrets which are to be judged.
#[derive(Drop)]
pub struct CheckWords<'a> {
    /// The guest.
    pub guest: GuestWords<'a>,
    /// The name of the cut file.
    pub cut: &'a str,
    /// The names of the files of the secrets.
    pub secrets: List<&'a str>,
    /// The limits of bits and turns, and by what they are judged.
    pub settings: CheckSettings,
    ghost few: { settings.budget ≤ 1048576 },
    ghost known: { IsTrue (has_table settings.judging) },
}
