ghost use Rattle.std.specs.Prelude.{◌≡◌, map, option_map};
ghost use Rattle.command_line.specs.CommandLines.{bound_in};
ghost use Rattle.command_line.specs.Words.{command_of, named_in};

use crate::all_secrets::AllSecretsWords;
use crate::commands::CommandWords;
use crate::guests::GuestWords;
use crate::option_words::value_of;
use crate::parts::Parts;
use crate::settings_rows::bound_settings;

/// The bound that the words after `bound` name; None exactly where they name none.
pub fn all_secrets_words<'a>(parts: &Parts<'a>) -> Option<CommandWords<'a>>
    ensures { option_map command_of result ≡ bound_in (map (λ word. word.now) parts.now.plain)
        (map named_in parts.now.options) }
{
    let [program, public_input, cut, bits] = parts.plain.as_slice() else {
        return None;
    };
    let options = parts.options.as_slice();
    let settings = bound_settings(bits, options)?;
    let all = AllSecretsWords {
        guest: GuestWords {
            program: *program,
            public_input: *public_input,
            regions: value_of(options, "--regions"),
        },
        cut: *cut,
        settings,
    };
    Some(CommandWords::Bound(all))
}
