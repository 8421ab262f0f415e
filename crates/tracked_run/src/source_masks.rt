ghost use Rattle.std.specs.Prelude.{◌≡◌, ◌<◌, ◌≤◌, Some, IsTrue};
ghost use Rattle.flow_base.specs.Guests.{is_inside};
ghost use Rattle.rv32im_machine.specs.Playing.{IsSource, AreSources, are_bytes, is_byte, makes_byte};
ghost use Rattle.rv32im_machine.specs.State.{joined};
ghost use Rattle.rv32im_machine.specs.Language.{part_of, shaped};
ghost use Rattle.shadow_masks.specs.Pages.{label_from};
ghost use Rattle.shadow_masks.specs.Shades.{byte_label};
ghost use Rattle.run_labels.specs.Masks.{masks_of, source_mask as mask_of_source};
ghost use Rattle.tracked_run.specs.Labels.{AreByteMasks, AreMasks, MayShape, labels_of, masks_in_order};

use crate::held::Held;
use crate::placing::label_at;
use rv32im_machine::{Part, Shape, Source, Sources, Work};
use shadow_masks::Shadow;

/// The masks of the sources of a passing, those of bytes by ascending address, and 0 where there are fewer than four.
#[derive(Clone, Copy)]
pub struct SourceMasks {
    pub first: u32,
    pub second: u32,
    pub third: u32,
    pub fourth: u32,
}

/// The mask of a source.
#[inline(always)]
fn source_mask(shadow: &Shadow, held: Held, source: Source) -> u32
    requires { IsSource (Some shadow.now.base) source }
    ensures mask { result ≡ mask_of_source (labels_of shadow.now held) source }
    ensures byte { IsTrue (is_byte source) → result ≤ 255 }
{
    match source {
        Source::At(place) => label_at(shadow, held, place).mask,
        Source::Constant(_) => 0,
        Source::Secret(_) => 0xff,
    }
}

/// The masks of `count` bytes from an address on, 1 to 4.
#[inline(never)]
fn byte_masks(shadow: &Shadow, address: u32, count: u32) -> SourceMasks
    requires inside { IsTrue (is_inside shadow.now.base address count) }
    requires some { 0 < count }
    requires few { count ≤ 4 }
    ensures first { result.first ≡ (label_from (byte_label shadow.now) address count 0).mask }
    ensures second { result.second ≡ (label_from (byte_label shadow.now) address count 1).mask }
    ensures third { result.third ≡ (label_from (byte_label shadow.now) address count 2).mask }
    ensures fourth { result.fourth ≡ (label_from (byte_label shadow.now) address count 3).mask }
    ensures bytes { AreByteMasks result }
{
    let labels = shadow.bytes(address, count);
    SourceMasks {
        first: labels[0].mask,
        second: labels[1].mask,
        third: labels[2].mask,
        fourth: labels[3].mask,
    }
}

/// The masks of the sources of a passing. Of bytes of memory they are masks of bytes, and so is the first of one byte.
#[inline(always)]
pub fn masks_of_sources(shadow: &Shadow, held: Held, sources: Sources) -> SourceMasks
    requires { AreSources (Some shadow.now.base) sources }
    ensures masks { AreMasks result (masks_of (labels_of shadow.now held) sources) }
    ensures bytes { IsTrue (are_bytes sources) → AreByteMasks result }
    ensures byte { IsTrue (makes_byte (Work.Shaped Shape.Copied) sources) → result.first ≤ 255 }
{
    match sources {
        Sources::One(source) => SourceMasks {
            first: source_mask(shadow, held, source),
            second: 0,
            third: 0,
            fourth: 0,
        },
        Sources::Two(first, second) => SourceMasks {
            first: source_mask(shadow, held, first),
            second: source_mask(shadow, held, second),
            third: 0,
            fourth: 0,
        },
        Sources::Byte(address) => byte_masks(shadow, address, 1),
        Sources::Half(address) => byte_masks(shadow, address, 2),
        Sources::Word(address) => byte_masks(shadow, address, 4),
    }
}

/// The masks of bytes as one mask, the lowest byte first.
fn joined_masks(masks: SourceMasks) -> u32
    requires { AreByteMasks masks }
    ensures { result ≡ joined (masks_in_order masks) }
{
    masks.first + 256 * (masks.second + 256 * (masks.third + 256 * masks.fourth))
}

/// One byte of a mask.
fn part_mask(part: Part, mask: u32) -> u32
    ensures { result ≡ part_of part mask }
{
    match part {
        Part::Byte0 => mask % 256,
        Part::Byte1 => mask / 256 % 256,
        Part::Byte2 => mask / 65536 % 256,
        Part::Byte3 => mask / 16777216 % 256,
    }
}

/// The mask of what moves bits of its sources about.
pub(crate) fn shaped_mask(shape: Shape, masks: SourceMasks) -> u32
    requires { MayShape shape masks }
    ensures { result ≡ shaped shape (masks_in_order masks) }
{
    match shape {
        Shape::Copied => masks.first,
        Shape::Extended(kind) => kind.extend(joined_masks(masks)),
        Shape::Part(part) => part_mask(part, masks.first),
    }
}
