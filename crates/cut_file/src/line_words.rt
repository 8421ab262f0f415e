ghost use Rattle.std.specs.Prelude.{◌≡◌, option_map};
ghost use Rattle.cut_file.specs.Private.Reading.{first_of, others_of, parts};

use crate::words::divide;
use std::marker::Model;

/// The words of a line that are not taken yet, with one space between them.
#[derive(Drop)]
pub(crate) struct LineWords<'a> {
    rest: Option<&'a [u8]>,
}

impl<'a> Model for LineWords<'a> {
    ghost use Rattle.std.specs.Prelude.{List, ℕ};
    ghost use Rattle.cut_file.specs.Private.Reading.{words_left};

    ghost Value = { List (List ℕ) };

    ghost view = { λ words. words_left words.rest };
}

impl<'a> LineWords<'a> {
    /// The words of a line.
    pub(crate) fn of(line: &'a [u8]) -> LineWords<'a>
        ensures { result ≡ parts 32 line.now }
    {
        LineWords { rest: Some(line) }
    }

    /// Takes the next word; None where there is none.
    pub(crate) fn next(&mut self) -> Option<&'a [u8]>
        ensures word { option_map (λ word. word.now) result ≡ first_of self.old }
        ensures left { self.new ≡ others_of self.old }
    {
        let rest = self.rest?;
        let Some((word, more)) = divide(b' ', rest) else {
            self.rest = None;
            return Some(rest);
        };
        self.rest = Some(more);
        Some(word)
    }
}
