ghost use Rattle.std.specs.Prelude.{◌≡◌, IfOk, IsTrue, map, option_map};
ghost use Rattle.command_line.specs.CommandLines.{check_in, has_table};
ghost use Rattle.command_line.specs.Words.{command_of, named_in};

use crate::checks::CheckWords;
use crate::commands::CommandWords;
use crate::guests::GuestWords;
use crate::judgings::Judging;
use crate::option_words::value_of;
use crate::parts::Parts;
use crate::settings_rows::check_settings;
use flow_base::{List, NoMemory};
use std::alloc::Global;

/// The secrets that the words after a command name, to be judged so; None exactly where they name none.
pub fn check_words<'a>(
    alloc: Global,
    parts: &Parts<'a>,
    judging: Judging,
) -> Result<Option<CommandWords<'a>>, NoMemory>
    requires { IsTrue (has_table judging) }
    ensures { IfOk result (λ found. option_map command_of found ≡ check_in judging
        (map (λ word. word.now) parts.now.plain) (map named_in parts.now.options)) }
{
    let [program, public_input, cut, bits, secrets @ ..] = parts.plain.as_slice() else {
        return Ok(None);
    };
    if secrets.is_empty() || secrets.len() > 64 {
        return Ok(None);
    }
    let options = parts.options.as_slice();
    let Some(settings) = check_settings(judging, bits, options) else {
        return Ok(None);
    };
    let check = CheckWords {
        guest: GuestWords {
            program: *program,
            public_input: *public_input,
            regions: value_of(options, "--regions"),
        },
        cut: *cut,
        secrets: List::from_vec(secrets.to_vec(alloc)?),
        settings,
    };
    Ok(Some(CommandWords::Check(check)))
}
