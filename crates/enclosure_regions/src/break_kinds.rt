use flow_base::HexWord;
use std::fmt;

/// What an instruction writes.
#[derive(Clone, Copy, Debug)]
pub enum Place {
    /// A register, 1 to 31.
    Reg(u8),
    /// The byte at an address.
    Byte(u32),
}

/// How a run breaks a region, which is named by its number.
#[derive(Clone, Copy, Debug)]
pub enum Break {
    /// An instruction inside the region writes a register that the region does not declare, or a byte outside its
    /// ranges.
    UndeclaredWrite {
        region: u16,
        /// The address of the instruction.
        pc: u32,
        /// The register, or the first such byte.
        place: Place,
    },
    /// At the leave a kept register has not its value at the entry.
    KeepBroken {
        region: u16,
        /// The lowest such register.
        register: u8,
        /// Its value at the entry.
        before: u32,
        /// Its value at the leave.
        after: u32,
    },
    /// An instruction inside the region is a call.
    CallInRegion {
        region: u16,
        /// The address of the instruction.
        pc: u32,
    },
    /// At the entry a range of the region is not inside guest memory.
    RangeOutside {
        region: u16,
        /// The first such range, counted from 0.
        range: u32,
    },
}

impl fmt::Display for Place {
    ghost use Rattle.std.specs.Prelude.{Some};
    ghost use Rattle.enclosure_regions.specs.Texts.{place_text};

    ghost output = { λ place. Some (place_text place) };

    fn fmt<W: fmt::Write>(&self, f: &mut fmt::Formatter<W>) -> fmt::Result {
        match *self {
            Place::Reg(register) => write!(f, "x{register}"),
            Place::Byte(address) => {
                let address = HexWord(address);
                write!(f, "{address}")
            }
        }
    }
}

impl fmt::Display for Break {
    ghost use Rattle.std.specs.Prelude.{Some};
    ghost use Rattle.enclosure_regions.specs.Texts.{break_text};

    ghost output = { λ broken. Some (break_text broken) };

    fn fmt<W: fmt::Write>(&self, f: &mut fmt::Formatter<W>) -> fmt::Result {
        match *self {
            Break::UndeclaredWrite { region, pc, place } => {
                let pc = HexWord(pc);
                write!(f, "region {region} undeclared {place} at {pc}")
            }
            Break::KeepBroken {
                region,
                register,
                before,
                after,
            } => {
                let before = HexWord(before);
                let after = HexWord(after);
                write!(
                    f,
                    "region {region} keep x{register} before {before} after {after}"
                )
            }
            Break::CallInRegion { region, pc } => {
                let pc = HexWord(pc);
                write!(f, "region {region} call at {pc}")
            }
            Break::RangeOutside { region, range } => {
                write!(f, "region {region} range {range} outside")
            }
        }
    }
}
