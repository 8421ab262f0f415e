ghost use Rattle.std.specs.Prelude.{◌≡◌, ◌+◌, ◌^◌, ◌<◌, ◌≤◌, ◌++◌, IfOk, OnOk, length};
ghost use Rattle.elf32_loader.specs.Images.{image_picture};
ghost use Rattle.elf32_loader.specs.Writing.{contents, elf_header, program_header, program_headers, written};

use crate::{Image, Segment};
use flow_base::{Bytes, NoMemory};
use std::alloc::Global;

/// The ELF header of a program file whose program headers follow it.
fn file_header(entry: u32, count: u16) -> [u8; 52]
    ensures { result ≡ elf_header entry count }
{
    let [e0, e1, e2, e3] = entry.to_le_bytes();
    let [c0, c1] = count.to_le_bytes();
    [
        0x7f, 0x45, 0x4c, 0x46, 1, 1, 1, 0, 0, 0, 0, 0, 0, 0, 0, 0, // e_ident
        2, 0, 243, 0, // e_type, e_machine
        1, 0, 0, 0, // e_version
        e0, e1, e2, e3, // e_entry
        52, 0, 0, 0, // e_phoff
        0, 0, 0, 0, // e_shoff
        0, 0, 0, 0, // e_flags
        52, 0, 32, 0, c0, c1, // e_ehsize, e_phentsize, e_phnum
        0, 0, 0, 0, 0, 0, // e_shentsize, e_shnum, e_shstrndx
    ]
}

/// The program header of as many bytes at an offset of the file and at an address of memory.
fn segment_header(offset: u32, address: u32, size: u32) -> [u8; 32]
    ensures { result ≡ program_header offset address size }
{
    let [o0, o1, o2, o3] = offset.to_le_bytes();
    let [a0, a1, a2, a3] = address.to_le_bytes();
    let [s0, s1, s2, s3] = size.to_le_bytes();
    [
        1, 0, 0, 0, // p_type
        o0, o1, o2, o3, // p_offset
        a0, a1, a2, a3, // p_vaddr
        a0, a1, a2, a3, // p_paddr
        s0, s1, s2, s3, // p_filesz
        s0, s1, s2, s3, // p_memsz
        7, 0, 0, 0, // p_flags
        1, 0, 0, 0, // p_align
    ]
}

/// Puts the program headers of segments whose bytes stand one after the other from an offset on.
fn put_headers(file: &mut Vec<u8>, offset: u32, segments: &[Segment]) -> Result<(), NoMemory>
    requires { offset + length (contents segments.now) < 2 ^ 32 }
    ensures { OnOk result (file.new.items ≡ file.old.items ++ program_headers offset segments.now) }
{
    let mut place = offset;
    for segment in segments {
        let size = segment.bytes.len() as u32;
        file.extend_from_slice(&segment_header(place, segment.address, size))?;
        place += size;
    }
    Ok(())
}

/// Puts the bytes of segments, one after the other.
fn put_contents(file: &mut Vec<u8>, segments: &[Segment]) -> Result<(), NoMemory>
    ensures { OnOk result (file.new.items ≡ file.old.items ++ contents segments.now) }
{
    for segment in segments {
        file.extend_from_slice(segment.bytes.as_slice())?;
    }
    Ok(())
}

/// The program file of an image, which loads as that image: the ELF header of an executable for RISC-V, a program
/// header for each segment in ascending order, and then the segments' bytes in the same order without gaps (System V
/// ABI, Object Files). Each header is PT_LOAD with p_paddr equal to p_vaddr, p_memsz equal to p_filesz, p_flags 7 and
/// p_align 1. The image has at most 64 segments. Its error is lack of memory.
pub fn write_image(alloc: Global, image: &Image) -> Result<Bytes, NoMemory>
    requires { length image.now.segments ≤ 64 }
    ensures { IfOk result (λ bytes. bytes ≡ written (image_picture image.now)) }
{
    let segments = image.segments.as_slice();
    let count = segments.len() as u16;
    let mut file = Vec::new(alloc);
    file.extend_from_slice(&file_header(image.entry, count))?;
    put_headers(&mut file, 52 + 32 * u32::from(count), segments)?;
    put_contents(&mut file, segments)?;
    Ok(Bytes::from_vec(file))
}
