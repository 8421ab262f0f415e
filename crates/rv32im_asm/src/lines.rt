//! The parts of a line.

ghost use Rattle.std.specs.Prelude.{◌≡◌, option_map};
ghost use Rattle.rv32im_asm.specs.Lines.{body_in, body_of, line_label, labelled as named_in, operands_in, one_of};
ghost use Rattle.rv32im_asm.specs.Lines.{stands_apart};
ghost use Rattle.rv32im_asm.specs.Lines.{text_of, three_of, two_of};

use crate::cutting::{before, cut_at, is_blank, is_name, trim_start, trimmed};

/// A line up to its comment, without the blanks around that.
fn text<'a>(line: &'a [u8]) -> &'a [u8]
    ensures { result.now ≡ text_of line.entry.now }
{
    trimmed(before(b'#', line))
}

/// The label that a text begins with, and what follows its colon.
fn labelled<'a>(text: &'a [u8]) -> Option<(&'a [u8], &'a [u8])>
    ensures { option_map (λ parts. (parts.0.now, parts.1.now)) result ≡ named_in text.entry.now }
{
    let (name, rest) = cut_at(b':', text)?;
    if is_name(name) {
        Some((name, rest))
    } else {
        None
    }
}

/// The label that a line begins with.
pub fn label<'a>(line: &'a [u8]) -> Option<&'a [u8]>
    ensures { option_map (λ label. label.now) result ≡ line_label line.entry.now }
{
    let (name, _) = labelled(text(line))?;
    Some(name)
}

/// The statement of a line, which may be empty; None where the label is not parted from it.
pub fn body<'a>(line: &'a [u8]) -> Option<&'a [u8]>
    ensures { option_map (λ body. body.now) result ≡ body_of line.entry.now }
{
    let text = text(line);
    match labelled(text) {
        Some((_, rest)) => if is_apart(rest) {
            Some(trim_start(rest))
        } else {
            None
        },
        None => Some(text),
    }
}

/// Whether a blank parts what follows a label from it.
fn is_apart(rest: &[u8]) -> bool
    ensures { result ≡ stands_apart rest.now }
{
    match rest {
        [] => true,
        [byte, ..] => is_blank(*byte),
    }
}

/// The one operand.
pub fn one<'a>(text: &'a [u8]) -> Option<&'a [u8]>
    ensures { option_map (λ operand. operand.now) result ≡ one_of (operands_in text.entry.now) }
{
    if text.is_empty() {
        return None;
    }
    match cut_at(b',', text) {
        Some(_) => None,
        None => Some(trimmed(text)),
    }
}

/// The two operands.
pub fn two<'a>(text: &'a [u8]) -> Option<(&'a [u8], &'a [u8])>
    ensures { option_map (λ operands. (operands.0.now, operands.1.now)) result ≡ two_of (operands_in text.entry.now) }
{
    let (first, second) = cut_at(b',', text)?;
    match cut_at(b',', second) {
        Some(_) => None,
        None => Some((trimmed(first), trimmed(second))),
    }
}

/// The three operands.
pub fn three<'a>(text: &'a [u8]) -> Option<(&'a [u8], &'a [u8], &'a [u8])>
    ensures { option_map (λ operands. (operands.0.now, operands.1.now, operands.2.now)) result
        ≡ three_of (operands_in text.entry.now) }
{
    let (first, rest) = cut_at(b',', text)?;
    let (second, third) = cut_at(b',', rest)?;
    match cut_at(b',', third) {
        Some(_) => None,
        None => Some((trimmed(first), trimmed(second), trimmed(third))),
    }
}
