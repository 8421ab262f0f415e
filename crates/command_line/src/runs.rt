ghost use Rattle.std.specs.Prelude.{◌≤◌, length};

use crate::guests::GuestWords;
use crate::settings::RunSettings;
use flow_base::List;

/// The words of a command that measures a run.
#[derive(Clone, Copy)]
pub struct RunWords<'a> {
    /// The guest.
    pub guest: GuestWords<'a>,
    /// The name of the file of the secret.
    pub secret: &'a str,
    /// The limit of turns, and the table of the mask rules.
    pub settings: RunSettings,
    ghost few: { settings.turns ≤ 20000000 },
    ghost first: { 1 ≤ settings.table },
    ghost last: { settings.table ≤ 3 },
}

/// The words of a command that measures several runs together.
#[derive(Drop)]
pub struct ManyRunsWords<'a> {
    /// The guest.
    pub guest: GuestWords<'a>,
    /// The names of the files of the secrets, 1 to 64.
    pub secrets: List<&'a str>,
    /// The limit of turns of each run, and the table of the mask rules.
    pub settings: RunSettings,
    ghost few: { settings.turns ≤ 20000000 },
    ghost first: { 1 ≤ settings.table },
    ghost last: { settings.table ≤ 3 },
    ghost some: { 1 ≤ length secrets },
    ghost most: { length secrets ≤ 64 },
}
