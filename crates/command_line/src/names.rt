ghost use Rattle.std.specs.Prelude.{◌≡◌};
ghost use Rattle.command_line.specs.CommandLines.{named_by};
ghost use Rattle.command_line.specs.Private.Names.{late_named_by};

/// The name of a command.
#[derive(Clone, Copy)]
pub enum CommandName {
    /// `check`
    Check,
    /// `taint`
    Taint,
    /// `bound`
    Bound,
    /// `measure`
    Measure,
    /// `measure-all`
    MeasureAll,
    /// `graph`
    Graph,
    /// `report`
    Report,
    /// `learn`
    Learn,
    /// `asm`
    Assemble,
    /// `list`
    List,
    /// `verify`
    Verify,
    /// `migrate`
    Migrate,
    /// `trial`
    Trial,
}

impl CommandName {
    /// The command that a word is the name of; None exactly where there is none.
    pub fn named_by(word: &str) -> Option<CommandName>
        ensures { result ≡ named_by word.now }
    {
        if word == "check" {
            return Some(CommandName::Check);
        }
        if word == "taint" {
            return Some(CommandName::Taint);
        }
        if word == "bound" {
            return Some(CommandName::Bound);
        }
        if word == "measure" {
            return Some(CommandName::Measure);
        }
        if word == "measure-all" {
            return Some(CommandName::MeasureAll);
        }
        if word == "graph" {
            return Some(CommandName::Graph);
        }
        if word == "report" {
            return Some(CommandName::Report);
        }
        CommandName::late_named_by(word)
    }

    /// The command that a word is the name of, of the last six.
    fn late_named_by(word: &str) -> Option<CommandName>
        ensures { result ≡ late_named_by word.now }
    {
        if word == "learn" {
            return Some(CommandName::Learn);
        }
        if word == "asm" {
            return Some(CommandName::Assemble);
        }
        if word == "list" {
            return Some(CommandName::List);
        }
        if word == "verify" {
            return Some(CommandName::Verify);
        }
        if word == "migrate" {
            return Some(CommandName::Migrate);
        }
        if word == "trial" {
            return Some(CommandName::Trial);
        }
        None
    }
}
