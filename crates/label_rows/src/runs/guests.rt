ghost use Rattle.std.specs.Prelude.{◌≡◌, ◌≤◌, length, IfSome};

use crate::runs::lines::Part;
use enclosure_regions::{Regions, read_regions};
use flow_base::Bytes;
use std::alloc::Global;

/// How many bytes an input or a program may have.
const LONGEST: usize = 65_536;

/// What a table says of a guest: its program, its inputs and its regions.
#[derive(Drop)]
pub struct Guest {
    code: Bytes,
    public: Bytes,
    secret: Bytes,
    regions: Regions,
    ghost short: { length secret ≤ 65536 },
}

/// Puts the words of a text after a program, the lowest byte of each first; None where it has another word than of
/// eight hexadecimal digits or fewer, or memory is short.
fn put_words(code: &mut Bytes, text: &str) -> Option<()> {
    for word in text.split(' ') {
        let word = u32::from_str_radix(word, 16).ok()?;
        for byte in word.to_le_bytes() {
            code.push(byte).ok()?;
        }
    }
    Some(())
}

/// The bytes of a text, at most 65,536; None where there are more, it has another word than of two hexadecimal digits
/// or fewer, or memory is short.
fn bytes_of(alloc: Global, text: &str) -> Option<Bytes>
    ensures { IfSome result (λ bytes. length bytes ≤ 65536) }
{
    let mut bytes = Bytes::new(alloc);
    for word in text.split(' ') {
        bytes.push(u8::from_str_radix(word, 16).ok()?).ok()?;
    }
    if bytes.len() > LONGEST {
        return None;
    }
    Some(bytes)
}

impl Guest {
    /// A guest without a program, whose inputs are empty, and which has no regions.
    pub fn new(alloc: Global) -> Guest {
        Guest {
            code: Bytes::new(alloc),
            public: Bytes::new(alloc),
            secret: Bytes::new(alloc),
            regions: Regions::none(alloc),
        }
    }

    /// Puts a part of the guest; None where the text is no such part or memory is short.
    pub fn put(&mut self, alloc: Global, part: Part, text: &str) -> Option<()> {
        match part {
            Part::Code => put_words(&mut self.code, text)?,
            Part::Public => self.public = bytes_of(alloc, text)?,
            Part::Secret => self.secret = bytes_of(alloc, text)?,
            Part::Regions => self.regions = read_regions(alloc, text.as_bytes()).ok()?,
        }
        Some(())
    }

    /// The bytes of the program.
    pub fn code(&self) -> &[u8]
        ensures { result.now ≡ self.now.code }
    {
        self.code.as_slice()
    }

    /// The public input.
    pub fn public(&self) -> &Bytes
        ensures { result.now ≡ self.now.public }
    {
        &self.public
    }

    /// The secret.
    pub fn secret(&self) -> &Bytes
        ensures value { result.now ≡ self.now.secret }
        ensures short { length result.now ≤ 65536 }
    {
        &self.secret
    }

    /// The regions.
    pub fn regions(&self) -> &Regions
        ensures { result.now ≡ self.now.regions }
    {
        &self.regions
    }
}
