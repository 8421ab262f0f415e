ghost use Rattle.std.specs.Prelude.{◌≡◌, ◌∷◌, [], ℕ, List as Seq, None, map, option_map, string_bytes, IfOk, IfSome};
ghost use Rattle.command_line.specs.CommandLines.{command_in, row_of};
ghost use Rattle.command_line.specs.Words.{command_of, named_in};
ghost use Rattle.command_line.specs.declared.names.CommandName.TheVariants as names;

use crate::all_secrets::AllSecretsWords;
use crate::all_secrets_rows::all_secrets_words;
use crate::check_rows::check_words;
use crate::checks::CheckWords;
use crate::judgings::Judging;
use crate::learn_rows::learn_words;
use crate::names::CommandName;
use crate::numbers::{number_of, table_in, version_in};
use crate::option_words::{are_taken, has_option};
use crate::parts::{Parts, parts_of};
use crate::run_rows::{many_runs_words, run_words};
use crate::runs::{ManyRunsWords, RunWords};
use crate::tellings::Telling;
use flow_base::NoMemory;
use std::alloc::Global;

/// The words of a command.
#[derive(Drop)]
pub enum CommandWords<'a> {
    /// `check PROG PUBLIC CUT BUDGET SECRET.. [--turns N] [--regions FILE]`, or `taint`, which may have `--rules N`, in
    /// place of `check`
    Check(CheckWords<'a>),
    /// `bound PROG PUBLIC CUT BUDGET [--turns N] [--regions FILE] [--rules N] [--paths N] [--list]
    /// [--any-public]`
    Bound(AllSecretsWords<'a>),
    /// `measure PROG PUBLIC SECRET [--turns N] [--regions FILE] [--rules N] [--cut N]`; `graph` or `report`, which may
    /// have `--json`, in place of `measure` and without `--cut`; `learn PROG PUBLIC SECRET FILE [--turns N]`
    Tell {
        /// What is told of the run.
        telling: Telling,
        /// The run.
        run: RunWords<'a>,
    },
    /// `measure-all PROG PUBLIC SECRET.. [--turns N] [--regions FILE] [--rules N] [--cut N]`
    MeasureAll {
        /// The version of the text of the cut: 1 or 2.
        version: u32,
        /// The runs.
        runs: ManyRunsWords<'a>,
    },
    /// `asm SOURCE`
    Assemble {
        source: &'a str,
    },
    /// `list PROG`
    List {
        program: &'a str,
    },
    /// `verify CERT`
    Verify {
        certificate: &'a str,
    },
    /// `migrate CUT`
    Migrate {
        cut: &'a str,
    },
    /// `trial N`
    Trial {
        number: u32,
    },
}

/// The file that the words after a command of one file name; None exactly where they name none.
fn file_word<'a>(parts: &Parts<'a>) -> Option<&'a str>
    ensures is { IfSome result (λ file. map (λ word. word.now) parts.now.plain ≡ file.now ∷ []) }
    ensures bare { IfSome result (λ file. map named_in parts.now.options ≡ []) }
    ensures none { result ≡ None → (file : Seq ℕ) → map (λ word. word.now) parts.now.plain ≡ file ∷ [] →
        ¬ (map named_in parts.now.options ≡ []) }
{
    if !parts.options.as_slice().is_empty() {
        return None;
    }
    match parts.plain.as_slice() {
        [file] => Some(*file),
        _ => None,
    }
}

/// The check that the words after `check` name; None exactly where they name none.
fn check_row<'a>(alloc: Global, parts: &Parts<'a>) -> Result<Option<CommandWords<'a>>, NoMemory>
    ensures { IfOk result (λ found. option_map command_of found ≡ row_of names.Check (map (λ word. word.now)
        parts.now.plain) (map named_in parts.now.options)) }
{
    let allowed = ["--turns", "--regions"];
    if !are_taken(parts.options.as_slice(), &allowed, &[]) {
        return Ok(None);
    }
    check_words(alloc, parts, Judging::Replay)
}

/// The check with one machine that the words after `taint` name; None exactly where they name none.
fn taint_row<'a>(alloc: Global, parts: &Parts<'a>) -> Result<Option<CommandWords<'a>>, NoMemory>
    ensures { IfOk result (λ found. option_map command_of found ≡ row_of names.Taint (map (λ word. word.now)
        parts.now.plain) (map named_in parts.now.options)) }
{
    let options = parts.options.as_slice();
    let allowed = ["--rules", "--turns", "--regions"];
    if !are_taken(options, &allowed, &[]) {
        return Ok(None);
    }
    let Some(table) = table_in(options) else {
        return Ok(None);
    };
    check_words(alloc, parts, Judging::Masks(table))
}

/// The bound that the words after `bound` name; None exactly where they name none.
fn bound_row<'a>(parts: &Parts<'a>) -> Option<CommandWords<'a>>
    ensures { option_map command_of result ≡ row_of names.Bound (map (λ word. word.now) parts.now.plain)
        (map named_in parts.now.options) }
{
    let allowed = ["--paths", "--rules", "--turns", "--regions"];
    let flags = ["--any-public", "--list"];
    if !are_taken(parts.options.as_slice(), &allowed, &flags) {
        return None;
    }
    all_secrets_words(parts)
}

/// The cut of the run that the words after `measure` name; None exactly where they name none.
fn measure_row<'a>(parts: &Parts<'a>) -> Option<CommandWords<'a>>
    ensures { option_map command_of result ≡ row_of names.Measure (map (λ word. word.now) parts.now.plain)
        (map named_in parts.now.options) }
{
    let options = parts.options.as_slice();
    if !are_taken(options, &["--cut", "--rules", "--turns", "--regions"], &[]) {
        return None;
    }
    let version = version_in(options)?;
    run_words(Telling::CutText(version), parts)
}

/// The cut of all the runs that the words after `measure-all` name; None exactly where they name none.
fn measure_all_row<'a>(
    alloc: Global,
    parts: &Parts<'a>,
) -> Result<Option<CommandWords<'a>>, NoMemory>
    ensures { IfOk result (λ found. option_map command_of found ≡ row_of names.MeasureAll (map (λ word. word.now)
        parts.now.plain) (map named_in parts.now.options)) }
{
    let options = parts.options.as_slice();
    if !are_taken(options, &["--cut", "--rules", "--turns", "--regions"], &[]) {
        return Ok(None);
    }
    let Some(version) = version_in(options) else {
        return Ok(None);
    };
    many_runs_words(alloc, version, parts)
}

/// The certificate of the run that the words after `graph` name; None exactly where they name none.
fn graph_row<'a>(parts: &Parts<'a>) -> Option<CommandWords<'a>>
    ensures { option_map command_of result ≡ row_of names.Graph (map (λ word. word.now) parts.now.plain)
        (map named_in parts.now.options) }
{
    if !are_taken(
        parts.options.as_slice(),
        &["--rules", "--turns", "--regions"],
        &[],
    ) {
        return None;
    }
    run_words(Telling::Certificate, parts)
}

/// The report of the run that the words after `report` name; None exactly where they name none.
fn report_row<'a>(parts: &Parts<'a>) -> Option<CommandWords<'a>>
    ensures { option_map command_of result ≡ row_of names.Report (map (λ word. word.now) parts.now.plain)
        (map named_in parts.now.options) }
{
    let options = parts.options.as_slice();
    if !are_taken(options, &["--rules", "--turns", "--regions"], &["--json"]) {
        return None;
    }
    run_words(Telling::Report(has_option(options, "--json")), parts)
}

/// The declaration of the run that the words after `learn` name; None exactly where they name none.
fn learn_row<'a>(parts: &Parts<'a>) -> Option<CommandWords<'a>>
    ensures { option_map command_of result ≡ row_of names.Learn (map (λ word. word.now) parts.now.plain)
        (map named_in parts.now.options) }
{
    if !are_taken(parts.options.as_slice(), &["--turns"], &[]) {
        return None;
    }
    learn_words(parts)
}

/// The source that the words after `asm` name; None exactly where they name none.
fn assemble_row<'a>(parts: &Parts<'a>) -> Option<CommandWords<'a>>
    ensures { option_map command_of result ≡ row_of names.Assemble (map (λ word. word.now) parts.now.plain)
        (map named_in parts.now.options) }
{
    let source = file_word(parts)?;
    Some(CommandWords::Assemble { source })
}

/// The program to be listed that the words after `list` name; None exactly where they name none.
fn list_row<'a>(parts: &Parts<'a>) -> Option<CommandWords<'a>>
    ensures { option_map command_of result ≡ row_of names.List (map (λ word. word.now) parts.now.plain)
        (map named_in parts.now.options) }
{
    let program = file_word(parts)?;
    Some(CommandWords::List { program })
}

/// The certificate that the words after `verify` name; None exactly where they name none.
fn verify_row<'a>(parts: &Parts<'a>) -> Option<CommandWords<'a>>
    ensures { option_map command_of result ≡ row_of names.Verify (map (λ word. word.now) parts.now.plain)
        (map named_in parts.now.options) }
{
    let certificate = file_word(parts)?;
    Some(CommandWords::Verify { certificate })
}

/// The cut that the words after `migrate` name; None exactly where they name none.
fn migrate_row<'a>(parts: &Parts<'a>) -> Option<CommandWords<'a>>
    ensures { option_map command_of result ≡ row_of names.Migrate (map (λ word. word.now) parts.now.plain)
        (map named_in parts.now.options) }
{
    let cut = file_word(parts)?;
    Some(CommandWords::Migrate { cut })
}

/// The trial that the words after `trial` name; None exactly where they name none.
fn trial_row<'a>(parts: &Parts<'a>) -> Option<CommandWords<'a>>
    ensures { option_map command_of result ≡ row_of names.Trial (map (λ word. word.now) parts.now.plain)
        (map named_in parts.now.options) }
{
    let word = file_word(parts)?;
    let number = number_of(word, 0, u32::MAX)?;
    Some(CommandWords::Trial { number })
}

/// The command of a name that has the words after it; None exactly where there is none.
fn row_of<'a>(
    alloc: Global,
    name: CommandName,
    parts: &Parts<'a>,
) -> Result<Option<CommandWords<'a>>, NoMemory>
    ensures { IfOk result (λ found. option_map command_of found ≡ row_of name (map (λ word. word.now) parts.now.plain)
        (map named_in parts.now.options)) }
{
    match name {
        CommandName::Check => check_row(alloc, parts),
        CommandName::Taint => taint_row(alloc, parts),
        CommandName::Bound => Ok(bound_row(parts)),
        CommandName::Measure => Ok(measure_row(parts)),
        CommandName::MeasureAll => measure_all_row(alloc, parts),
        CommandName::Graph => Ok(graph_row(parts)),
        CommandName::Report => Ok(report_row(parts)),
        CommandName::Learn => Ok(learn_row(parts)),
        CommandName::Assemble => Ok(assemble_row(parts)),
        CommandName::List => Ok(list_row(parts)),
        CommandName::Verify => Ok(verify_row(parts)),
        CommandName::Migrate => Ok(migrate_row(parts)),
        CommandName::Trial => Ok(trial_row(parts)),
    }
}

/// The command that words name; None exactly where they are no command line that is understood. Its error is want of
/// memory.
pub fn command_line<'a>(
    alloc: Global,
    words: &'a [String],
) -> Result<Option<CommandWords<'a>>, NoMemory>
    ensures { IfOk result (λ found. option_map command_of found ≡ command_in (map string_bytes words.entry.now)) }
{
    let [first, others @ ..] = words else {
        return Ok(None);
    };
    let Some(name) = CommandName::named_by(first.as_str()) else {
        return Ok(None);
    };
    let Some(parts) = parts_of(alloc, others)? else {
        return Ok(None);
    };
    row_of(alloc, name, &parts)
}
