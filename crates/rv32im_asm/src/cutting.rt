//! Parts of texts.

ghost use Rattle.std.specs.Prelude.{◌≡◌, ◌==◌, ◌+◌, ◌∷◌, ◌<◌, ◌≤◌, length, option_map, IfSome};
ghost use Rattle.std.specs.List.{after_first, before_first, list_all, position};
ghost use Rattle.rv32im_asm.specs.Lines.{cut_at as parts_at, first_word, is_blank as is_space, is_name as is_label};
ghost use Rattle.rv32im_asm.specs.Lines.{lines_of, trimmed as without_blanks, without_blanks_after};
ghost use Rattle.rv32im_asm.specs.Lines.{without_blanks_before};
ghost use Rattle.rv32im_asm.specs.Lines.{is_name_byte as may_follow, is_name_start as may_begin};

/// The place of the first byte of this value.
fn find(value: u8, text: &[u8]) -> Option<usize>
    ensures { result ≡ position (λ byte. byte == value) text.now }
{
    text.iter().position(|byte| *byte == value)
}

/// What stands before and after the first byte of this value; None where no byte has it.
#[tactic(auto, using(crate::proofs::Cuts::cuts))]
pub fn cut_at<'a>(value: u8, text: &'a [u8]) -> Option<(&'a [u8], &'a [u8])>
    ensures parts { option_map (λ parts. (parts.0.now, parts.1.now)) result ≡ parts_at value text.entry.now }
    ensures shorter { IfSome result (λ parts. length parts.0.now + length parts.1.now + 1 ≡ length text.entry.now) }
{
    let place = find(value, text)?;
    Some((&text[..place], &text[place + 1..]))
}

/// What stands before the first byte of this value, or all where no byte has it.
pub fn before<'a>(value: u8, text: &'a [u8]) -> &'a [u8]
    ensures { result.now ≡ before_first (λ byte. byte == value) text.entry.now }
{
    match find(value, text) {
        Some(place) => &text[..place],
        None => text,
    }
}

/// The first line of a text that is not empty, and what follows it.
#[tactic(auto, using(crate::proofs::Cuts::first_lines))]
pub fn first_line<'a>(text: &'a [u8]) -> (&'a [u8], &'a [u8])
    requires { 0 < length text.now }
    ensures lines { lines_of text.entry.now ≡ result.0.now ∷ lines_of result.1.now }
    ensures shorter { length result.0.now + length result.1.now ≤ length text.entry.now }
    ensures nearer { length result.1.now < length text.entry.now }
{
    match cut_at(b'\n', text) {
        Some(parts) => parts,
        None => (text, &text[text.len()..]),
    }
}

/// Whether a byte is a space or a tab.
pub fn is_blank(byte: u8) -> bool
    ensures { result ≡ is_space byte }
{
    byte == b' ' || byte == b'\t'
}

/// A text without the blanks before it.
pub fn trim_start<'a>(text: &'a [u8]) -> &'a [u8]
    ensures { result.now ≡ without_blanks_before text.entry.now }
{
    match text.iter().position(|byte| !is_blank(*byte)) {
        Some(start) => &text[start..],
        None => &text[text.len()..],
    }
}

fn trim_end<'a>(text: &'a [u8]) -> &'a [u8]
    ensures { result.now ≡ without_blanks_after text.entry.now }
{
    match text.iter().rposition(|byte| !is_blank(*byte)) {
        Some(last) => &text[..last + 1],
        None => &text[..0],
    }
}

/// A text without the blanks around it.
pub fn trimmed<'a>(text: &'a [u8]) -> &'a [u8]
    ensures { result.now ≡ without_blanks text.entry.now }
{
    trim_end(trim_start(text))
}

/// The place of the first blank.
fn find_blank(text: &[u8]) -> Option<usize>
    ensures { result ≡ position is_space text.now }
{
    text.iter().position(|byte| is_blank(*byte))
}

/// The first word of a text, and what follows the blank after it.
pub fn cut_word<'a>(text: &'a [u8]) -> (&'a [u8], &'a [u8])
    ensures word { result.0.now ≡ first_word text.entry.now }
    ensures rest { result.1.now ≡ after_first is_space text.entry.now }
{
    match find_blank(text) {
        Some(place) => (&text[..place], &text[place + 1..]),
        None => (text, &text[text.len()..]),
    }
}

fn is_name_start(byte: u8) -> bool
    ensures { result ≡ may_begin byte }
{
    byte.is_ascii_alphabetic() || byte == b'_' || byte == b'.'
}

fn is_name_byte(byte: u8) -> bool
    ensures { result ≡ may_follow byte }
{
    is_name_start(byte) || byte.is_ascii_digit()
}

fn are_name_bytes(text: &[u8]) -> bool
    ensures { result ≡ list_all may_follow text.now }
{
    text.iter().all(|byte| is_name_byte(*byte))
}

/// Whether a text is a name: a letter, `_` or `.`, followed by letters, digits, `_` and `.`, at most 64 bytes.
pub fn is_name(text: &[u8]) -> bool
    ensures { result ≡ is_label text.now }
{
    match text {
        [] => false,
        [first, rest @ ..] => is_name_start(*first) && are_name_bytes(rest) && rest.len() < 64,
    }
}
