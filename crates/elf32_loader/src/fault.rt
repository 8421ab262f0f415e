use flow_base::{HexWord, NoMemory, hex_digits};
use std::fmt;
use thiserror::Error;

/// Why a program file gives no image. All offsets and sizes are in bytes, and program headers are counted from 0.
#[derive(Debug, Drop, Error)]
pub enum ElfFault {
    /// The file ends within the ELF header or within the program headers: it has fewer bytes than it needs.
    Truncated {
        /// How many bytes the headers take.
        need: u64,
        /// How many bytes the file has.
        have: u32,
    },
    /// The file is not a 32-bit little-endian ELF file of version 1: the first byte of e_ident that differs.
    NotElf32 {
        /// Where the byte stands.
        offset: u32,
        /// The byte.
        byte: u8,
    },
    /// The file is not an executable (ET_EXEC, 2) for RISC-V (EM_RISCV, 243).
    WrongKind {
        /// The field e_type.
        kind: u32,
        /// The field e_machine.
        machine: u32,
    },
    /// The program has compressed instructions (EF_RISCV_RVC).
    Compressed,
    /// The program headers are none or above 64 in number or not of 32 bytes, or no load is among them. A load is a
    /// header PT_LOAD with p_memsz other than 0.
    Headers {
        /// The field e_phnum.
        count: u32,
        /// The field e_phentsize.
        size: u32,
        /// The number of loads, as far as they are counted: 0.
        loads: u32,
    },
    /// The program wants a dynamic linker: the first header that is PT_DYNAMIC or PT_INTERP.
    Dynamic {
        /// The number of the header.
        index: u32,
    },
    /// A load has more bytes than memory, or bytes beyond the file, or memory that ends above the base plus 16,777,216
    /// or above 0xfffff000: the first such load. Or the base is above 0xfefff000: the first load of those with the
    /// lowest address. The base is the lowest address of a load rounded down to a multiple of 4,096.
    SegmentRange {
        /// The number of the header.
        index: u32,
    },
    /// Two loads share an address: the first of them, and the first after it that shares an address with it.
    Overlap {
        /// The number of one header.
        a: u32,
        /// The number of the other header, which is higher.
        b: u32,
    },
    /// The entry is no multiple of 4, or lies in no load.
    EntryOutside {
        /// The field e_entry.
        entry: u32,
    },
    /// There was not enough memory.
    Memory,
}

impl From<NoMemory> for ElfFault {
    ghost use Rattle.std.specs.Prelude.{◌≡◌};
    ghost use Rattle.elf32_loader.specs.declared.fault.ElfFault.TheVariants.{Memory};
    ghost use Rattle.flow_base.specs.declared.lists.NoMemory.{NoMemory as TheNoMemory};

    ghost from_gives = { λ _ fault. fault ≡ Memory };

    fn from(_: NoMemory) -> ElfFault {
        ElfFault::Memory
    }
}

/// A byte, which shows as `0x` and its two hexadecimal digits, in lower case.
#[derive(Clone, Copy)]
struct HexByte(u8);

impl fmt::Display for HexByte {
    ghost use Rattle.std.specs.Prelude.{Some};
    ghost use Rattle.elf32_loader.specs.Fault.{hex_byte};

    ghost output = { λ byte. Some (hex_byte byte.0) };

    fn fmt<W: fmt::Write>(&self, f: &mut fmt::Formatter<W>) -> fmt::Result {
        let [_, _, _, _, _, _, high, low] = hex_digits(u32::from(self.0));
        let high = char::from(high);
        let low = char::from(low);
        write!(f, "0x{high}{low}")
    }
}

impl fmt::Display for ElfFault {
    ghost use Rattle.std.specs.Prelude.{Some};
    ghost use Rattle.elf32_loader.specs.Fault.{program_fault_text};

    ghost output = { λ fault. Some (program_fault_text fault) };

    fn fmt<W: fmt::Write>(&self, f: &mut fmt::Formatter<W>) -> fmt::Result {
        match *self {
            ElfFault::Truncated { need, have } => write!(f, "truncated need {need} have {have}"),
            ElfFault::NotElf32 { offset, byte } => {
                let byte = HexByte(byte);
                write!(f, "not-elf32 offset {offset} byte {byte}")
            }
            ElfFault::WrongKind { kind, machine } => {
                write!(f, "wrong-kind type {kind} machine {machine}")
            }
            ElfFault::Compressed => write!(f, "compressed"),
            ElfFault::Headers { count, size, loads } => {
                write!(f, "headers {count} size {size} loads {loads}")
            }
            ElfFault::Dynamic { index } => write!(f, "dynamic {index}"),
            ElfFault::SegmentRange { index } => write!(f, "segment {index}"),
            ElfFault::Overlap { a, b } => write!(f, "overlap {a} {b}"),
            ElfFault::EntryOutside { entry } => {
                let entry = HexWord(entry);
                write!(f, "entry {entry}")
            }
            ElfFault::Memory => write!(f, "memory"),
        }
    }
}
