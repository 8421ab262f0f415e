ghost use Rattle.std.specs.Prelude.{◌≡◌, List as Seq, ℕ, map, option_map};
ghost use Rattle.command_line.specs.Parts.{are_taken as are_taken_of, has_option as has_option_of};
ghost use Rattle.command_line.specs.Parts.{is_name_of, may_take, option_value};
ghost use Rattle.command_line.specs.Words.{named_in};

/// An option as it stands in words: its name, and its value, if it has one.
#[derive(Clone, Copy)]
pub struct OptionWord<'a> {
    /// The name, with its dashes.
    pub name: &'a str,
    /// The value; a flag has none.
    pub value: Option<&'a str>,
}

/// Whether a word is one of these names.
fn is_among(names: &[&str], word: &str) -> bool
    ensures { result ≡ is_name_of (map (λ name. name.now) names.now) word.now }
{
    for name in names {
        if *name == word {
            return true;
        }
    }
    false
}

/// Whether an option of this name stands there.
pub(crate) fn has_option(options: &[OptionWord], name: &str) -> bool
    ensures { result ≡ has_option_of name.now (map named_in options.now) }
{
    for option in options {
        if option.name == name {
            return true;
        }
    }
    false
}

/// The value of the option of this name, where it stands there with one.
pub(crate) fn value_of<'a>(options: &[OptionWord<'a>], name: &str) -> Option<&'a str>
    ensures { option_map (λ value. value.now) result ≡ option_value name.now (map named_in options.now) }
{
    for option in options {
        if option.name == name {
            return option.value;
        }
    }
    None
}

/// Whether an option may stand there.
fn is_taken(option: &OptionWord, options: &[&str], flags: &[&str]) -> bool
    ensures { result ≡ may_take (map (λ name. name.now) options.now) (map (λ name. name.now) flags.now)
        (named_in option.now).name (named_in option.now).value }
{
    match option.value {
        Some(_) => is_among(options, option.name),
        None => is_among(flags, option.name),
    }
}

/// Whether no option stands there but these, with a value, and these flags.
pub(crate) fn are_taken(named: &[OptionWord], options: &[&str], flags: &[&str]) -> bool
    ensures { result ≡ are_taken_of (map (λ name. name.now) options.now) (map (λ name. name.now) flags.now)
        (map named_in named.now) }
{
    for option in named {
        if !is_taken(option, options, flags) {
            return false;
        }
    }
    true
}
