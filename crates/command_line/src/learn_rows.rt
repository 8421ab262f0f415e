ghost use Rattle.std.specs.Prelude.{◌≡◌, map, option_map};
ghost use Rattle.command_line.specs.CommandLines.{learning_in};
ghost use Rattle.command_line.specs.Words.{command_of, named_in};

use crate::commands::CommandWords;
use crate::guests::GuestWords;
use crate::parts::Parts;
use crate::runs::RunWords;
use crate::settings_rows::run_settings;
use crate::tellings::Telling;

/// The run of which the words after `learn` want the declaration; None exactly where they name none. No mask rule is
/// asked.
pub fn learn_words<'a>(parts: &Parts<'a>) -> Option<CommandWords<'a>>
    ensures { option_map command_of result ≡ learning_in (map (λ word. word.now) parts.now.plain)
        (map named_in parts.now.options) }
{
    let [program, public_input, secret, file] = parts.plain.as_slice() else {
        return None;
    };
    let settings = run_settings(parts.options.as_slice())?;
    let run = RunWords {
        guest: GuestWords {
            program: *program,
            public_input: *public_input,
            regions: Some(*file),
        },
        secret: *secret,
        settings,
    };
    Some(CommandWords::Tell {
        telling: Telling::Declaration,
        run,
    })
}
