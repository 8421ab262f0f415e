ghost use Rattle.std.specs.Prelude.{◌≡◌, ◌≢◌, ℕ, ◌+◌, ◌^◌, ◌<◌, ◌≤◌, IfErr, IfOk, OnOk, insert, length};
ghost use Rattle.elf32_loader.specs.FaultTable.{HasNoFault, IsFileBase};
ghost use Rattle.elf32_loader.specs.FirstFault.{IsFirstFault};
ghost use Rattle.elf32_loader.specs.Headers.{header_count};
ghost use Rattle.elf32_loader.specs.Images.{image_picture};
ghost use Rattle.elf32_loader.specs.Programs.{IsImage, IsLoaded};
ghost use Rattle.elf32_loader.specs.Private.Searches.{AreLoads, IsPlace, IsPutIn};

use crate::fields::{count_of, entry_from, load_of};
use crate::headers::Header;
use crate::load_checks::check_file;
use crate::{ElfFault, Image, Segment};
use flow_base::{Bytes, List, NoMemory};
use std::alloc::Global;

/// What a load puts into memory: its bytes of the file, and then zeros.
fn read_segment(alloc: Global, file: &[u8], header: &Header) -> Result<Segment, NoMemory>
    requires in_file { header.now.offset + header.now.file_size ≤ length file.now }
    requires in_memory { header.now.file_size ≤ header.now.memory_size }
    ensures { IfOk result (λ segment. IsLoaded file.now header.now segment) }
{
    let start = header.offset as usize;
    let size = header.memory_size as usize;
    let mut bytes = Vec::with_capacity(alloc, size)?;
    bytes.extend_from_slice(&file[start..start + header.file_size as usize])?;
    bytes.resize(size, 0)?;
    Ok(Segment {
        address: header.address,
        bytes: Bytes::from_vec(bytes),
    })
}

/// The place of an address among those of ascending segments.
fn place_of(segments: &[Segment], address: u32) -> usize
    ensures { IsPlace address segments.now result }
{
    for (place, segment) in segments.iter().enumerate() {
        if address < segment.address {
            return place;
        }
    }
    segments.len()
}

/// Puts a segment among ascending ones at the place of its address.
fn insert_segment(segments: &mut Vec<Segment>, segment: Segment) -> Result<(), NoMemory>
    ensures { OnOk result (IsPutIn segment segments.old.items segments.new.items) }
{
    let place = place_of(segments, segment.address);
    match segments.insert(place, segment) {
        Ok(()) => Ok(()),
        Err(_) => Err(NoMemory),
    }
}

/// Puts the load of an index, where it is one, among the loads of the indices below.
fn put_load(
    alloc: Global,
    file: &[u8],
    index: u16,
    segments: &mut Vec<Segment>,
) -> Result<(), NoMemory>
    requires no_fault { HasNoFault file.now }
    requires based { (base : ℕ) × IsFileBase file.now base }
    requires below { index < header_count file.now }
    requires loads { AreLoads file.now index segments.old.items }
    ensures { OnOk result (AreLoads file.now (index + 1) segments.new.items) }
{
    let Some(header) = load_of(file, index) else {
        return Ok(());
    };
    let segment = read_segment(alloc, file, &header)?;
    insert_segment(segments, segment)
}

/// The loads of a file by ascending address.
fn read_segments(alloc: Global, file: &[u8]) -> Result<Vec<Segment>, NoMemory>
    requires no_fault { HasNoFault file.now }
    requires based { (base : ℕ) × IsFileBase file.now base }
    ensures { IfOk result (λ segments. AreLoads file.now (header_count file.now) segments.items) }
{
    let mut segments = Vec::new(alloc);
    for index in 0..count_of(file) {
        put_load(alloc, file, index, &mut segments)?;
    }
    Ok(segments)
}

/// The image that a program file spells (System V ABI, Object Files). Each PT_LOAD header with p_memsz other than 0 is a
/// load: it puts the p_filesz bytes at p_offset to p_vaddr, and then zeros up to p_memsz. Sections, every other header
/// and every field that no fault names are passed over.
///
/// A file that gives no image answers its first fault, in this order: the size of the ELF header, its first bytes, the
/// kind, the flags, the number and size of the program headers, the end of their table, PT_DYNAMIC or PT_INTERP, no
/// load, a load out of range, the base, an overlap, the entry. Lack of memory answers [`ElfFault::Memory`].
pub fn load_image(alloc: Global, file: &[u8]) -> Result<Image, ElfFault>
    requires { length file.now < 2 ^ 32 }
    ensures loaded { IfOk result (λ image. IsImage file.now (image_picture image)) }
    ensures fault { IfErr result (λ fault. fault ≢ ElfFault.Memory → IsFirstFault file.now fault) }
{
    let base = check_file(file)?;
    let segments = read_segments(alloc, file)?;
    Ok(Image {
        base,
        entry: entry_from(file),
        segments: List::from_vec(segments),
    })
}
