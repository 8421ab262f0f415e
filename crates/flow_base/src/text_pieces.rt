ghost use Rattle.std.specs.Prelude.{◌≡◌, ◌++◌, OnOk, OnErr, drop, option_map, slice_index};
ghost use Rattle.std.specs.Fmt.{decimal};
ghost use Rattle.flow_base.specs.Points.{slot_text};
ghost use Rattle.flow_base.specs.TextPieces.{after_text};

use crate::lists::NoMemory;
use crate::points::Slot;
use std::alloc::Global;

/// The rest after a wanted text; None where the bytes do not begin with it.
#[tactic(auto, using(crate::proofs::WantedTexts::stripped_prefix))]
pub fn after<'a>(wanted: &[u8], bytes: &'a [u8]) -> Option<&'a [u8]>
    ensures { option_map (λ rest. rest.now) result ≡ after_text wanted.now bytes.entry.now }
{
    bytes.strip_prefix(wanted)
}

/// The byte at an index; 0 where the bytes end before it.
pub fn byte_at(bytes: &[u8], index: usize) -> u8
    ensures { result ≡ slice_index bytes.now index }
{
    match bytes.get(index) {
        Some(byte) => *byte,
        None => 0,
    }
}

/// What stands after the first bytes, so many of them; nothing where there are no more.
pub fn skip(bytes: &[u8], count: usize) -> &[u8]
    ensures { result.now ≡ drop count bytes.now }
{
    &bytes[count.min(bytes.len())..]
}

/// Puts bytes at the end of a text. The one error is `NoMemory`; the text is then as it was.
pub fn put(text: &mut Vec<u8>, bytes: &[u8]) -> Result<(), NoMemory>
    ensures ok { OnOk result (text.new.items ≡ text.old.items ++ bytes.now) }
    ensures err { OnErr result (text.new.items ≡ text.old.items) }
{
    text.extend_from_slice(bytes)?;
    Ok(())
}

/// Puts a number in decimal at the end of a text. The one error is `NoMemory`; the text is then as it was.
pub fn put_number(alloc: Global, text: &mut Vec<u8>, number: u64) -> Result<(), NoMemory>
    ensures ok { OnOk result (text.new.items ≡ text.old.items ++ decimal number) }
    ensures err { OnErr result (text.new.items ≡ text.old.items) }
{
    let digits = format!(in alloc; "{number}")?;
    put(text, digits.as_bytes())
}

/// Puts the text of a slot at the end of a text. The one error is `NoMemory`; the text is then as it was.
pub fn put_slot(alloc: Global, text: &mut Vec<u8>, slot: Slot) -> Result<(), NoMemory>
    ensures ok { OnOk result (text.new.items ≡ text.old.items ++ slot_text slot) }
    ensures err { OnErr result (text.new.items ≡ text.old.items) }
{
    let word = format!(in alloc; "{slot}")?;
    put(text, word.as_bytes())
}
