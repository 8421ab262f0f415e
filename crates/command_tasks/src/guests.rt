use elf32_loader::Image;
use enclosure_regions::Regions;
use flow_base::Bytes;

/// The files of a guest.
#[derive(Clone, Copy)]
pub struct GuestFiles<'a> {
    /// The program file.
    pub program: &'a Bytes,
    /// The public input.
    pub public_input: &'a Bytes,
    /// The region file, where one is named.
    pub regions: Option<&'a Bytes>,
}

/// A guest, as it is read of its files.
#[derive(Drop)]
pub struct Guest<'a> {
    /// The image of its program.
    pub image: Image,
    /// Its public input.
    pub public_input: &'a Bytes,
    /// Its regions.
    pub regions: Regions,
}
