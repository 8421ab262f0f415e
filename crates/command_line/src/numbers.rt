//! The numbers that words and values of options name.

ghost use Rattle.std.specs.Prelude.{◌≡◌, ◌≤◌, map, option_map, IfSome};
ghost use Rattle.command_line.specs.CommandLines.{highest_budget, number_or as number_or_of, number_within};
ghost use Rattle.command_line.specs.CommandLines.{paths_of, table_of, turns_of, version_of};
ghost use Rattle.command_line.specs.Words.{named_in};

use crate::option_words::{OptionWord, value_of};
use flow_base::number_named;

/// The number that a word names; None exactly where it is no decimal without leading zeros within the range.
pub fn number_of(word: &str, lowest: u32, highest: u32) -> Option<u32>
    ensures is { result ≡ number_within lowest highest word.now }
    ensures low { IfSome result (λ number. lowest ≤ number) }
    ensures high { IfSome result (λ number. number ≤ highest) }
{
    let Some(number) = number_named(word.as_bytes()) else {
        return None;
    };
    if number < lowest || number > highest {
        return None;
    }
    Some(number)
}

/// The number that a value names, or the one without a value; None exactly where it names none within the range.
fn number_or(value: Option<&str>, other: u32, lowest: u32, highest: u32) -> Option<u32>
    requires low { lowest ≤ other }
    requires high { other ≤ highest }
    ensures is { result ≡ number_or_of other lowest highest (option_map (λ word. word.now) value.entry) }
    ensures low { IfSome result (λ number. lowest ≤ number) }
    ensures high { IfSome result (λ number. number ≤ highest) }
{
    match value {
        Some(word) => number_of(word, lowest, highest),
        None => Some(other),
    }
}

/// The number of bits that a word names; None exactly where it names none.
pub fn budget_of(word: &str) -> Option<u32>
    ensures is { result ≡ number_within 0 highest_budget word.now }
    ensures few { IfSome result (λ budget. budget ≤ highest_budget) }
{
    number_of(word, 0, 1_048_576)
}

/// The limit of turns that options name, 1,000,000 where they name none; None exactly where its value names none.
pub fn turns_in(options: &[OptionWord]) -> Option<u32>
    ensures is { result ≡ turns_of (map named_in options.now) }
    ensures few { IfSome result (λ turns. turns ≤ 20000000) }
{
    number_or(value_of(options, "--turns"), 1_000_000, 1, 20_000_000)
}

/// The version of a cut's text that options name, 1 where they name none; None exactly where its value names none.
pub fn version_in(options: &[OptionWord]) -> Option<u32>
    ensures { result ≡ version_of (map named_in options.now) }
{
    number_or(value_of(options, "--cut"), 1, 1, 2)
}

/// The table of mask rules that options name, 1 where they name none; None exactly where its value names none.
pub fn table_in(options: &[OptionWord]) -> Option<u32>
    ensures is { result ≡ table_of (map named_in options.now) }
    ensures first { IfSome result (λ table. 1 ≤ table) }
    ensures last { IfSome result (λ table. table ≤ 3) }
{
    number_or(value_of(options, "--rules"), 1, 1, 3)
}

/// The limit of paths that options name, 65,536 where they name none; None exactly where its value names none.
pub fn paths_in(options: &[OptionWord]) -> Option<u32>
    ensures is { result ≡ paths_of (map named_in options.now) }
    ensures some { IfSome result (λ paths. 1 ≤ paths) }
    ensures few { IfSome result (λ paths. paths ≤ 1048576) }
{
    number_or(value_of(options, "--paths"), 65_536, 1, 1_048_576)
}
