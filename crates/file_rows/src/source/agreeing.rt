ghost use Rattle.std.specs.Prelude.{◌≡◌, ◌<◌, ◌^◌, ◌↔◌, IfSome, IsTrue, length};
ghost use Rattle.file_rows.specs.Agreeing.{IsAssembledTo, IsListed, IsRefused, has_bytes as shows};
ghost use Rattle.elf32_loader.specs.Images.{image_picture};

use elf32_loader::Image;
use rv32im_asm::{AsmFault, assemble, list};
use std::alloc::Global;

/// Where a program stands, and where it is entered.
const START: u32 = 0x1_0000;

/// Whether an image is one segment of these bytes at the start, which is its base and its entry.
fn has_bytes(image: &Image, bytes: &[u8]) -> bool
    ensures { result ≡ shows (image_picture image.now) bytes.now }
{
    match image.segments.as_slice() {
        [segment] => {
            image.base == START
                && image.entry == START
                && segment.address == START
                && segment.bytes.as_slice() == bytes
        }
        _ => false,
    }
}

/// Whether a source assembles to these bytes; None where memory is short.
pub fn assembles_to(alloc: Global, source: &[u8], bytes: &[u8]) -> Option<bool>
    requires { length source.now < 2 ^ 32 }
    ensures { IfSome result (λ agreed. IsTrue agreed ↔ IsAssembledTo source.now bytes.now) }
{
    match assemble(alloc, source) {
        Ok(image) => Some(has_bytes(&image, bytes)),
        Err(AsmFault::Memory) => None,
        Err(_) => Some(false),
    }
}

/// Whether a source assembles, and the listing of its image is this text; None where memory is short.
pub fn is_listed_as(alloc: Global, source: &[u8], text: &[u8]) -> Option<bool>
    requires { length source.now < 2 ^ 32 }
    ensures { IfSome result (λ agreed. IsTrue agreed ↔ IsListed source.now text.now) }
{
    match assemble(alloc, source) {
        Ok(image) => {
            let listing = list(alloc, &image).ok()?;
            Some(listing.as_slice() == text)
        }
        Err(AsmFault::Memory) => None,
        Err(_) => Some(false),
    }
}

/// Whether a source is refused, and the fault shows as this text; None where memory is short.
pub fn is_refused_with(alloc: Global, source: &[u8], text: &str) -> Option<bool>
    requires { length source.now < 2 ^ 32 }
    ensures { IfSome result (λ agreed. IsTrue agreed ↔ IsRefused source.now text.now) }
{
    match assemble(alloc, source) {
        Ok(_) => Some(false),
        Err(AsmFault::Memory) => None,
        Err(fault) => {
            let shown = format!(in alloc; "{fault}").ok()?;
            Some(shown.as_str() == text)
        }
    }
}
