//! What words and options say beside files.

ghost use Rattle.std.specs.Prelude.{◌≡◌, ◌≤◌, map, IfSome, IsTrue};
ghost use Rattle.command_line.specs.CommandLines.{bound_settings as bound_settings_of, check_settings as check_settings_of};
ghost use Rattle.command_line.specs.CommandLines.{has_table, highest_budget, run_settings as run_settings_of};
ghost use Rattle.command_line.specs.Words.{named_in};

use crate::judgings::Judging;
use crate::numbers::{budget_of, paths_in, table_in, turns_in};
use crate::option_words::{OptionWord, has_option};
use crate::settings::{BoundSettings, CheckSettings, RunSettings};

/// What a word of bits and options say of secrets that are judged so; None exactly where one of them names no number.
pub fn check_settings(judging: Judging, bits: &str, options: &[OptionWord]) -> Option<CheckSettings>
    ensures is { result ≡ check_settings_of judging bits.now (map named_in options.now) }
    ensures few { IfSome result (λ settings. settings.budget ≤ highest_budget) }
    ensures judging { IfSome result (λ settings. settings.judging ≡ judging) }
{
    let budget = budget_of(bits)?;
    let turns = turns_in(options)?;
    Some(CheckSettings {
        budget,
        turns,
        judging,
    })
}

/// What options say of a run that is measured; None exactly where one of them names no number.
pub fn run_settings(options: &[OptionWord]) -> Option<RunSettings>
    ensures is { result ≡ run_settings_of (map named_in options.now) }
    ensures few { IfSome result (λ settings. settings.turns ≤ 20000000) }
    ensures first { IfSome result (λ settings. 1 ≤ settings.table) }
    ensures last { IfSome result (λ settings. settings.table ≤ 3) }
{
    let turns = turns_in(options)?;
    let table = table_in(options)?;
    Some(RunSettings { turns, table })
}

/// What a word of bits and options say of all secrets; None exactly where one of them names no number.
pub fn bound_settings(bits: &str, options: &[OptionWord]) -> Option<BoundSettings>
    ensures is { result ≡ bound_settings_of bits.now (map named_in options.now) }
    ensures few { IfSome result (λ settings. settings.budget ≤ highest_budget) }
    ensures first { IfSome result (λ settings. 1 ≤ settings.table) }
    ensures last { IfSome result (λ settings. settings.table ≤ 3) }
    ensures some { IfSome result (λ settings. 1 ≤ settings.paths) }
    ensures most { IfSome result (λ settings. settings.paths ≤ 1048576) }
{
    let budget = budget_of(bits)?;
    let run = run_settings(options)?;
    let paths = paths_in(options)?;
    Some(BoundSettings {
        budget,
        turns: run.turns,
        table: run.table,
        paths,
        any_public: has_option(options, "--any-public"),
        listed: has_option(options, "--list"),
    })
}
