use flow_base::NoMemory;
use std::fmt;

/// Why a file gives no regions. Regions are counted from 1.
#[derive(Clone, Copy)]
pub enum RegionFault {
    /// The file is no JSON (RFC 8259).
    Json,
    /// The file is not an object with the one key `regions`, an array (index 0), or a region is not an object of the
    /// form that regions have, or has the number of an earlier region, or more than 64 ranges or 65,536 bytes of them.
    Shape {
        index: u32,
    },
    /// A region's enter and leave addresses are equal.
    SameAddress {
        index: u32,
    },
    /// An earlier region has the enter address.
    EnterTwice {
        index: u32,
    },
    /// A register stands twice in `outs` and `keep` together: the lowest.
    RegisterTwice {
        index: u32,
        register: u8,
    },
    /// There are more than 256 regions.
    TooMany {
        /// The number of regions.
        count: u32,
    },
    /// There was not enough memory.
    Memory,
}

impl fmt::Display for RegionFault {
    ghost use Rattle.std.specs.Prelude.{Some};
    ghost use Rattle.enclosure_regions.specs.Texts.{region_fault_text};

    ghost output = { λ fault. Some (region_fault_text fault) };

    fn fmt<W: fmt::Write>(&self, f: &mut fmt::Formatter<W>) -> fmt::Result {
        match self {
            RegionFault::Json => write!(f, "json"),
            RegionFault::Shape { index } => write!(f, "shape {index}"),
            RegionFault::SameAddress { index } => write!(f, "same-address {index}"),
            RegionFault::EnterTwice { index } => write!(f, "enter-twice {index}"),
            RegionFault::RegisterTwice { index, register } => {
                write!(f, "register-twice {index} x{register}")
            }
            RegionFault::TooMany { count } => write!(f, "too-many {count}"),
            RegionFault::Memory => write!(f, "out of memory"),
        }
    }
}

impl From<NoMemory> for RegionFault {
    ghost use Rattle.std.specs.Prelude.{◌≡◌};
    ghost use Rattle.enclosure_regions.specs.declared.region_faults.RegionFault.TheVariants.{Memory};
    ghost use Rattle.flow_base.specs.declared.lists.NoMemory.{NoMemory as TheNoMemory};

    ghost from_gives = { λ _ fault. fault ≡ Memory };

    fn from(_: NoMemory) -> RegionFault {
        RegionFault::Memory
    }
}
