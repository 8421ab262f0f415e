ghost use Rattle.std.specs.Prelude.{◌≡◌, None, Ok, map, string_bytes, IfOk, IfSome};
ghost use Rattle.command_line.specs.CommandLines.{IsNoCommand};
ghost use Rattle.command_line.specs.Words.{command_of};
ghost use Rattle.help_rows.specs.Names.{IsNamed, judging_name, name_of, telling_name};

use command_line::{CommandWords, Judging, Telling, command_line};
use flow_base::NoMemory;
use std::alloc::Global;

/// The name of the command that tells so of a run.
fn name_of_telling<'a>(telling: Telling) -> &'a str
    ensures { result.now ≡ telling_name telling }
{
    match telling {
        Telling::CutText(_) => "measure",
        Telling::Certificate => "graph",
        Telling::Report(_) => "report",
        Telling::Declaration => "learn",
    }
}

/// The name of the command that judges secrets so.
fn name_of_judging<'a>(judging: Judging) -> &'a str
    ensures { result.now ≡ judging_name judging }
{
    match judging {
        Judging::Replay => "check",
        Judging::Masks(_) => "taint",
    }
}

/// The name of a command.
fn name<'a>(command: &CommandWords<'_>) -> &'a str
    ensures { result.now ≡ name_of (command_of command.now) }
{
    match command {
        CommandWords::Check(check) => name_of_judging(check.settings.judging),
        CommandWords::Bound(_) => "bound",
        CommandWords::Tell { telling, .. } => name_of_telling(*telling),
        CommandWords::MeasureAll { .. } => "measure-all",
        CommandWords::Assemble { .. } => "asm",
        CommandWords::List { .. } => "list",
        CommandWords::Verify { .. } => "verify",
        CommandWords::Migrate { .. } => "migrate",
        CommandWords::Trial { .. } => "trial",
    }
}

/// The name of the command that words are; None exactly where they are no command line.
pub fn command_name<'a>(alloc: Global, words: &[String]) -> Result<Option<&'a str>, NoMemory>
    ensures named { IfOk result (λ found. IfSome found (λ name. IsNamed (map string_bytes words.now) name.now)) }
    ensures none { result ≡ Ok None → IsNoCommand (map string_bytes words.now) }
{
    let Some(command) = command_line(alloc, words)? else {
        return Ok(None);
    };
    Ok(Some(name(&command)))
}
