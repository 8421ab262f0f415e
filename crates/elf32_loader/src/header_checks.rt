ghost use Rattle.std.specs.Prelude.{◌≡◌, ◌+◌, ◌*◌, ◌^◌, ◌<◌, ◌≤◌, IfErr, OnOk, length};
ghost use Rattle.elf32_loader.specs.FaultTable.{HasCleanHeader, HasCutTable, HasNoHeader, HasOtherTable, IsCompressed, IsOtherFormat, IsOtherKind};
ghost use Rattle.elf32_loader.specs.FirstFault.{AnswersFormat, HeaderRows};
ghost use Rattle.elf32_loader.specs.Headers.{file_type, header_count, header_size, machine_type, table_offset};

use crate::ElfFault;
use crate::fields::{count_of, size_from, table_from};
use byteorder::{ByteOrder, LittleEndian};

/// The size of an ELF header.
const HEADER_SIZE: usize = 52;

/// The first bytes of e_ident: the magic number, 32 bits, little-endian, version 1.
const IDENTIFICATION: [u8; 7] = [0x7f, b'E', b'L', b'F', 1, 1, 1];

/// e_type of an executable.
const ET_EXEC: u16 = 2;

/// e_machine of RISC-V.
const EM_RISCV: u16 = 243;

/// That the file is as long as an ELF header.
fn check_size(file: &[u8]) -> Result<(), ElfFault>
    requires { length file.now < 2 ^ 32 }
    ensures ok { OnOk result (¬ HasNoHeader file.now) }
    ensures err { IfErr result (λ fault. HasNoHeader file.now × (fault ≡ ElfFault.Truncated 52 (length file.now))) }
{
    if file.len() < HEADER_SIZE {
        return Err(ElfFault::Truncated {
            need: HEADER_SIZE as u64,
            have: file.len() as u32,
        });
    }
    Ok(())
}

/// That it is a 32-bit little-endian ELF file of version 1.
fn check_format(file: &[u8]) -> Result<(), ElfFault>
    requires { 52 ≤ length file.now }
    ensures ok { OnOk result (¬ IsOtherFormat file.now) }
    ensures err { IfErr result (λ fault. IsOtherFormat file.now × AnswersFormat file.now fault) }
{
    for (place, wanted) in IDENTIFICATION.iter().enumerate() {
        let byte = file[place];
        if byte != *wanted {
            return Err(ElfFault::NotElf32 {
                offset: place as u32,
                byte,
            });
        }
    }
    Ok(())
}

/// That it is an executable for RISC-V.
fn check_kind(file: &[u8]) -> Result<(), ElfFault>
    requires { 52 ≤ length file.now }
    ensures ok { OnOk result (¬ IsOtherKind file.now) }
    ensures err { IfErr result (λ fault. IsOtherKind file.now
        × (fault ≡ ElfFault.WrongKind (file_type file.now) (machine_type file.now))) }
{
    let kind = LittleEndian::read_u16(&file[16..]);
    let machine = LittleEndian::read_u16(&file[18..]);
    if kind != ET_EXEC || machine != EM_RISCV {
        return Err(ElfFault::WrongKind {
            kind: u32::from(kind),
            machine: u32::from(machine),
        });
    }
    Ok(())
}

/// That it has no compressed instructions.
fn check_flags(file: &[u8]) -> Result<(), ElfFault>
    requires { 52 ≤ length file.now }
    ensures ok { OnOk result (¬ IsCompressed file.now) }
    ensures err { IfErr result (λ fault. IsCompressed file.now × (fault ≡ ElfFault.Compressed)) }
{
    let flags = LittleEndian::read_u32(&file[36..]);
    if flags % 2 == 1 {
        return Err(ElfFault::Compressed);
    }
    Ok(())
}

/// That it has 1 to 64 program headers of 32 bytes.
fn check_table(file: &[u8]) -> Result<(), ElfFault>
    requires { 52 ≤ length file.now }
    ensures ok { OnOk result (¬ HasOtherTable file.now) }
    ensures err { IfErr result (λ fault. HasOtherTable file.now
        × (fault ≡ ElfFault.Headers (header_count file.now) (header_size file.now) 0)) }
{
    let size = size_from(file);
    let count = count_of(file);
    if size != 32 || count == 0 || count > 64 {
        return Err(ElfFault::Headers {
            count: u32::from(count),
            size: u32::from(size),
            loads: 0,
        });
    }
    Ok(())
}

/// That it is as long as its program headers say.
fn check_whole_table(file: &[u8]) -> Result<(), ElfFault>
    requires header { 52 ≤ length file.now }
    requires size { length file.now < 2 ^ 32 }
    ensures ok { OnOk result (¬ HasCutTable file.now) }
    ensures err { IfErr result (λ fault. HasCutTable file.now
        × (fault ≡ ElfFault.Truncated (table_offset file.now + 32 * header_count file.now) (length file.now))) }
{
    let need = u64::from(table_from(file)) + 32 * u64::from(count_of(file));
    if (file.len() as u64) < need {
        return Err(ElfFault::Truncated {
            need,
            have: file.len() as u32,
        });
    }
    Ok(())
}

/// That the ELF header has no fault, or the first that it has.
pub fn check_header(file: &[u8]) -> Result<(), ElfFault>
    requires { length file.now < 2 ^ 32 }
    ensures ok { OnOk result (HasCleanHeader file.now) }
    ensures err { IfErr result (λ fault. HeaderRows file.now fault ⊥) }
{
    check_size(file)?;
    check_format(file)?;
    check_kind(file)?;
    check_flags(file)?;
    check_table(file)?;
    check_whole_table(file)
}
