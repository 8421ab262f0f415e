ghost use Rattle.std.specs.Prelude.{◌≡◌, true, false, map, string_bytes, option_map, IfNone, IfOk, IfSome, Some, ◌++◌};
ghost use Rattle.std.specs.Prelude.{◌∷◌, []};
ghost use Rattle.std.specs.List.{before_first, after_first};
ghost use Rattle.command_line.specs.Parts.{after_word as after_word_of, has_equals, is_equals, is_flag as is_flag_of};
ghost use Rattle.command_line.specs.Parts.{is_plain_word, parts_of as parts_of_of, with_behind as with_behind_of};
ghost use Rattle.command_line.specs.Parts.{with_beside as with_beside_of, with_option as with_option_of};
ghost use Rattle.command_line.specs.Words.{parts_in};

use crate::option_words::{OptionWord, has_option};
use flow_base::{List, NoMemory};
use std::alloc::Global;

/// The words after a command, parted.
#[derive(Drop)]
pub struct Parts<'a> {
    /// The words that are no options, in order.
    pub plain: List<&'a str>,
    /// The options, in order.
    pub options: List<OptionWord<'a>>,
    /// An option whose value is the next word.
    pub waiting: Option<&'a str>,
}

/// Whether a word can name a file, or be a value by itself.
fn is_name(word: &str) -> bool
    ensures { result ≡ is_plain_word word.now }
{
    match word.as_bytes() {
        [] => false,
        [first, ..] => *first != b'-',
    }
}

/// These parts, and an option; None exactly where it stands there already.
fn with_option<'a>(
    before: Parts<'a>,
    name: &'a str,
    value: Option<&'a str>,
) -> Result<Option<Parts<'a>>, NoMemory>
    ensures { IfOk result (λ after. option_map parts_in after ≡ with_option_of (parts_in before.entry) name.entry.now
        (option_map (λ word. word.now) value.entry)) }
{
    if has_option(before.options.as_slice(), name) {
        return Ok(None);
    }
    let mut options = before.options;
    options.push(OptionWord { name, value })?;
    Ok(Some(Parts {
        plain: before.plain,
        options,
        waiting: None,
    }))
}

/// These parts, and an option in two words; None exactly where they are none, or it stands there already.
fn with_beside<'a>(
    before: Parts<'a>,
    name: &'a str,
    value: &'a str,
) -> Result<Option<Parts<'a>>, NoMemory>
    ensures { IfOk result (λ after. option_map parts_in after ≡ with_beside_of (parts_in before.entry) name.entry.now
        value.entry.now) }
{
    if !is_name(value) {
        return Ok(None);
    }
    with_option(before, name, Some(value))
}

/// These parts, and an option with its value after `=`; None exactly where the value is empty, or it stands there
/// already.
fn with_behind<'a>(
    before: Parts<'a>,
    name: &'a str,
    value: &'a str,
) -> Result<Option<Parts<'a>>, NoMemory>
    ensures { IfOk result (λ after. option_map parts_in after ≡ with_behind_of (parts_in before.entry) name.entry.now
        value.entry.now) }
{
    if value.is_empty() {
        return Ok(None);
    }
    with_option(before, name, Some(value))
}

/// What stands around the first `=` of a word; None exactly where it has none.
fn around_equals<'a>(word: &'a str) -> Option<(&'a str, &'a str)>
    ensures has { IfSome result (λ parts. has_equals word.entry.now ≡ true) }
    ensures name { IfSome result (λ parts. parts.0.now ≡ before_first is_equals word.entry.now) }
    ensures value { IfSome result (λ parts. parts.1.now ≡ after_first is_equals word.entry.now) }
    ensures none { IfNone result (has_equals word.entry.now ≡ false) }
{
    word.split_once('=')
}

/// These parts, and a word that is no option.
fn with_plain<'a>(before: Parts<'a>, word: &'a str) -> Result<Parts<'a>, NoMemory>
    ensures { IfOk result (λ after. parts_in after ≡ record (parts_in before.entry) {
      plain = (parts_in before.entry).plain ++ word.entry.now ∷ [];
    }) }
{
    let mut plain = before.plain;
    plain.push(word)?;
    Ok(Parts {
        plain,
        options: before.options,
        waiting: before.waiting,
    })
}

/// Whether a word is an option without a value.
fn is_flag(word: &str) -> bool
    ensures { result ≡ is_flag_of word.now }
{
    word == "--json" || word == "--list" || word == "--any-public"
}

/// These parts, and the next word; None exactly where it cannot stand here.
fn after_word<'a>(before: Parts<'a>, word: &'a str) -> Result<Option<Parts<'a>>, NoMemory>
    ensures { IfOk result (λ after. option_map parts_in after ≡ after_word_of (parts_in before.entry)
        (parts_in before.entry).waiting word.entry.now) }
{
    if let Some(name) = before.waiting {
        return with_beside(before, name, word);
    }
    if is_name(word) {
        return Ok(Some(with_plain(before, word)?));
    }
    if is_flag(word) {
        return with_option(before, word, None);
    }
    if let Some((name, value)) = around_equals(word) {
        return with_behind(before, name, value);
    }
    Ok(Some(Parts {
        plain: before.plain,
        options: before.options,
        waiting: Some(word),
    }))
}

/// The parts of the words after a command; None exactly where they have none.
pub fn parts_of<'a>(alloc: Global, words: &'a [String]) -> Result<Option<Parts<'a>>, NoMemory>
    ensures { IfOk result (λ parts. option_map parts_in parts ≡ parts_of_of (map string_bytes words.entry.now)) }
{
    let mut parts = Parts {
        plain: List::new(alloc),
        options: List::new(alloc),
        waiting: None,
    };
    for word in words {
        let Some(after) = after_word(parts, word.as_str())? else {
            return Ok(None);
        };
        parts = after;
    }
    if parts.waiting.is_some() {
        return Ok(None);
    }
    Ok(Some(parts))
}
