//! What files of the table hold.

ghost use Rattle.std.specs.Prelude.{◌<◌, ◌^◌, length, IfSome};

use cut_file::{Cut, read_cut};
use elf32_loader::{Image, load_image};
use enclosure_regions::{Regions, read_regions};
use flow_base::{Bytes, DiskFiles, Files};

const FILE_LIMIT: u32 = 1_048_576;

/// The bytes of a file.
pub fn bytes_of(rt: &HostRuntime, name: &str) -> Option<Bytes>
    ensures { IfSome result (λ bytes. length bytes < 2 ^ 32) }
{
    match DiskFiles::new(*rt).load(rt.alloc(), name, FILE_LIMIT) {
        Ok(bytes) => Some(bytes),
        Err(_) => None,
    }
}

/// The program of a file.
pub fn image_of(rt: &HostRuntime, name: &str) -> Option<Image> {
    let file = bytes_of(rt, name)?;
    match load_image(rt.alloc(), file.as_slice()) {
        Ok(image) => Some(image),
        Err(_) => None,
    }
}

/// The regions of a file.
pub fn regions_of(rt: &HostRuntime, name: &str) -> Option<Regions> {
    let file = bytes_of(rt, name)?;
    match read_regions(rt.alloc(), file.as_slice()) {
        Ok(regions) => Some(regions),
        Err(_) => None,
    }
}

/// The cut of a file.
pub fn cut_of(rt: &HostRuntime, name: &str) -> Option<Cut> {
    let file = bytes_of(rt, name)?;
    match read_cut(rt.alloc(), file.as_slice()) {
        Ok(cut) => Some(cut),
        Err(_) => None,
    }
}
