ghost use Rattle.std.specs.Prelude.{◌≡◌, ◌++◌, ℕ, List, IfOk, OnOk, string_bytes};
ghost use Rattle.command_tasks.specs.Names.{escape, is_control as is_control_of, shown as shown_of};

use flow_base::{NoMemory, hex_digits};
use std::alloc::Global;
use std::fmt;
use std::marker::Model;

/// The name of a file as it is printed, on one line: each of its control bytes is spelled by `\x` and two digits.
#[derive(Drop)]
pub struct Name {
    text: String,
}

impl Model for Name {
    ghost Value = { List ℕ };

    ghost view = { λ name. string_bytes name.text };
}

impl Name {
    /// The name as it is printed.
    pub fn new(alloc: Global, name: &str) -> Result<Name, NoMemory>
        ensures { IfOk result (λ made. made ≡ shown_of name.now) }
    {
        let text = shown(alloc, name)?;
        Ok(Name { text })
    }
}

impl fmt::Display for Name {
    ghost use Rattle.std.specs.Prelude.{Some};

    ghost output = { λ name. Some name };

    fn fmt<W: fmt::Write>(&self, f: &mut fmt::Formatter<W>) -> fmt::Result {
        let text = self.text.as_str();
        write!(f, "{text}")
    }
}

/// Whether a byte is a control byte of ASCII: 00 to 1f, or 7f.
fn is_control(byte: u8) -> bool
    ensures { result ≡ is_control_of byte }
{
    byte < 0x20 || byte == 0x7f
}

/// Appends `\x` and the two hexadecimal digits of a byte.
fn push_escape(text: &mut String, byte: u8) -> Result<(), NoMemory>
    ensures { OnOk result (string_bytes text.new ≡ string_bytes text.old ++ escape byte) }
{
    let [_, _, _, _, _, _, high, low] = hex_digits(u32::from(byte));
    text.push_str("\\x")?;
    text.push(char::from(high))?;
    text.push(char::from(low))?;
    Ok(())
}

/// A name with its control bytes spelled.
fn shown(alloc: Global, name: &str) -> Result<String, NoMemory>
    ensures { IfOk result (λ text. string_bytes text ≡ shown_of name.now) }
{
    let bytes = name.as_bytes();
    let mut text = String::new(alloc);
    let mut start = 0;
    for at in 0..bytes.len() {
        let byte = bytes[at];
        if is_control(byte) {
            text.push_str(&name[start..at])?;
            push_escape(&mut text, byte)?;
            start = at + 1;
        }
    }
    text.push_str(&name[start..])?;
    Ok(text)
}
