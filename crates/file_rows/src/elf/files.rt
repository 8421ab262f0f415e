ghost use Rattle.std.specs.Prelude.{◌≡◌, ◌<◌, ◌^◌, IfSome, Ok, length};
ghost use Rattle.hex.specs.Hex.{decode_of};

use std::alloc::Global;

/// The most bytes that a file may have.
const LONGEST: usize = 65_536;

/// The file that hexadecimal digits spell; None where they spell none, it is too long, or memory is short.
pub fn file_of(alloc: Global, text: &str) -> Option<Vec<u8>>
    ensures file { IfSome result (λ file. decode_of text.now ≡ Ok file.items) }
    ensures short { IfSome result (λ file. length file.items < 2 ^ 32) }
{
    let file = hex::decode(alloc, text.as_bytes()).ok()?;
    if file.len() > LONGEST {
        return None;
    }
    Some(file)
}
