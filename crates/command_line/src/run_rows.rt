ghost use Rattle.std.specs.Prelude.{◌≡◌, IfOk, map, option_map};
ghost use Rattle.command_line.specs.CommandLines.{many_runs_in, run_in};
ghost use Rattle.command_line.specs.Words.{command_of, named_in};

use crate::commands::CommandWords;
use crate::guests::GuestWords;
use crate::option_words::value_of;
use crate::parts::Parts;
use crate::runs::{ManyRunsWords, RunWords};
use crate::settings_rows::run_settings;
use crate::tellings::Telling;
use flow_base::{List, NoMemory};
use std::alloc::Global;

/// The run that the words after a command name, to be told of so; None exactly where they name none.
pub fn run_words<'a>(telling: Telling, parts: &Parts<'a>) -> Option<CommandWords<'a>>
    ensures { option_map command_of result ≡ run_in telling (map (λ word. word.now) parts.now.plain)
        (map named_in parts.now.options) }
{
    let [program, public_input, secret] = parts.plain.as_slice() else {
        return None;
    };
    let options = parts.options.as_slice();
    let settings = run_settings(options)?;
    let run = RunWords {
        guest: GuestWords {
            program: *program,
            public_input: *public_input,
            regions: value_of(options, "--regions"),
        },
        secret: *secret,
        settings,
    };
    Some(CommandWords::Tell { telling, run })
}

/// The runs that the words after `measure-all` name, whose cut is told in a version; None exactly where they name none.
pub fn many_runs_words<'a>(
    alloc: Global,
    version: u32,
    parts: &Parts<'a>,
) -> Result<Option<CommandWords<'a>>, NoMemory>
    ensures { IfOk result (λ found. option_map command_of found ≡ many_runs_in version
        (map (λ word. word.now) parts.now.plain) (map named_in parts.now.options)) }
{
    let [program, public_input, secrets @ ..] = parts.plain.as_slice() else {
        return Ok(None);
    };
    if secrets.is_empty() || secrets.len() > 64 {
        return Ok(None);
    }
    let options = parts.options.as_slice();
    let Some(settings) = run_settings(options) else {
        return Ok(None);
    };
    let runs = ManyRunsWords {
        guest: GuestWords {
            program: *program,
            public_input: *public_input,
            regions: value_of(options, "--regions"),
        },
        secrets: List::from_vec(secrets.to_vec(alloc)?),
        settings,
    };
    Ok(Some(CommandWords::MeasureAll { version, runs }))
}
