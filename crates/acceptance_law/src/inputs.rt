//! What is known of a program, its inputs, its regions and a cut, told to proofs. None of these functions does anything when it
//! is called.

ghost use Rattle.std.specs.Prelude.{◌≡◌, true};
ghost use Rattle.acceptance_law.specs.GuestLaws.{HasBytes};
ghost use Rattle.acceptance_law.specs.MeasuredLaws.{AreInputs};
ghost use Rattle.acceptance_law.specs.Inputs.{AreBytes};
ghost use Rattle.cut_file.specs.Cuts.{is_cut_picture};
ghost use Rattle.cut_file.specs.Pictures.{cut_picture};
ghost use Rattle.elf32_loader.specs.Images.{image_picture};
ghost use Rattle.elf32_loader.specs.Pictures.{is_image_picture};
ghost use Rattle.enclosure_regions.specs.Regions.{are_regions};

use cut_file::Cut;
use elf32_loader::{Image, Segment};
use enclosure_regions::Regions;
use flow_base::Bytes;

/// Tells that bytes are below 256.
fn tell_slice(bytes: &[u8])
    ensures { AreBytes bytes.now }
{}

/// Tells that bytes are below 256.
fn tell_bytes(bytes: &Bytes)
    ensures { AreBytes bytes.now }
{
    tell_slice(bytes.as_slice());
}

/// Tells that the bytes of segments are below 256.
fn tell_segments(segments: &[Segment])
    ensures { HasBytes segments.now }
{
    let mut rest = segments;
    while let [segment, more @ ..] = rest {
        tell_bytes(&segment.bytes);
        rest = more;
    }
}

/// Tells what an image keeps by its type.
fn tell_image(image: &Image)
    ensures valid { is_image_picture (image_picture image.now) ≡ true }
    ensures bytes { HasBytes image.now.segments }
{
    tell_segments(image.segments.as_slice());
}

/// Tells what a list of regions keeps by its type.
fn tell_regions(regions: &Regions)
    ensures { are_regions regions.now.items ≡ true }
{
    let _items = &regions.items;
}

/// Tells that a program, its inputs and its regions are as files have them.
pub fn tell_inputs(image: &Image, public: &Bytes, secret: &Bytes, regions: &Regions)
    ensures { AreInputs (image_picture image.now) public.now regions.now.items secret.now }
{
    tell_image(image);
    tell_bytes(public);
    tell_bytes(secret);
    tell_regions(regions);
}

/// Tells what a cut keeps by its type.
pub fn tell_cut(cut: &Cut)
    ensures { is_cut_picture (cut_picture cut.now) ≡ true }
{}
