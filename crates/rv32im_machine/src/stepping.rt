use flow_base::HexWord;
use std::fmt;
use thiserror::Error;

/// Why a guest is stopped, with the program counter (`pc`) of the instruction that stopped it. Addresses are in bytes.
#[derive(Clone, Copy, Debug, PartialEq, Eq, Error)]
pub enum Fault {
    /// The word at `pc` is no instruction.
    Illegal { pc: u32, word: u32 },
    /// The four bytes at `pc` are not inside guest memory.
    FetchOutside { pc: u32 },
    /// The jump or the taken branch at `pc` has a target that is no multiple of 4.
    FetchUnaligned { pc: u32 },
    /// The bytes of a load from `address` on are not inside guest memory.
    LoadOutside { pc: u32, address: u32 },
    /// The bytes of a store from `address` on are not inside guest memory.
    StoreOutside { pc: u32, address: u32 },
    /// EBREAK.
    Breakpoint { pc: u32 },
    /// A write call would give more output bytes than the limit.
    OutputLimit { pc: u32 },
}

/// What a step answers, and the mode of a machine after it.
#[derive(Clone, Copy, Debug, PartialEq, Eq)]
pub enum Stepped {
    /// The turn is made, and the run goes on.
    Ran,
    /// The guest has exited with this status.
    Exited(u8),
    /// The guest is stopped for this reason.
    Stopped(Fault),
}

/// The number of a call (a7) and its arguments (a0, a1 and a2), as they have gone on.
#[derive(Clone, Copy)]
pub struct Arguments {
    pub number: u32,
    pub first: u32,
    pub second: u32,
    pub third: u32,
}

/// What a call does, once its arguments have gone on. Addresses and counts are in bytes.
#[derive(Clone, Copy)]
pub enum CallPlan {
    /// This is put into a0, and nothing else is done.
    Answer(u32),
    /// The next bytes of the public input go to memory, and their number into a0.
    PublicRead { to: u32, count: u32 },
    /// The next bytes of the secret input go to memory, and their number into a0.
    SecretRead { to: u32, count: u32 },
    /// Bytes of memory are appended to the output, and their number is put into a0.
    Write { from: u32, count: u32 },
    /// This is the break from now on, and is put into a0.
    Brk(u32),
    /// The run exits with the low 8 bits of a0 as status.
    Exit,
    /// The guest is stopped.
    Stop(Fault),
}

impl fmt::Display for Fault {
    ghost use Rattle.std.specs.Prelude.{Some};
    ghost use Rattle.rv32im_machine.specs.Stepping.{stop_text};

    ghost output = { λ fault. Some (stop_text fault) };

    fn fmt<W: fmt::Write>(&self, f: &mut fmt::Formatter<W>) -> fmt::Result {
        match *self {
            Fault::Illegal { pc, word } => {
                write!(f, "illegal {} word {}", HexWord(pc), HexWord(word))
            }
            Fault::FetchOutside { pc } => write!(f, "fetch-outside {}", HexWord(pc)),
            Fault::FetchUnaligned { pc } => write!(f, "fetch-unaligned {}", HexWord(pc)),
            Fault::LoadOutside { pc, address } => {
                write!(
                    f,
                    "load-outside {} address {}",
                    HexWord(pc),
                    HexWord(address)
                )
            }
            Fault::StoreOutside { pc, address } => {
                write!(
                    f,
                    "store-outside {} address {}",
                    HexWord(pc),
                    HexWord(address)
                )
            }
            Fault::Breakpoint { pc } => write!(f, "breakpoint {}", HexWord(pc)),
            Fault::OutputLimit { pc } => write!(f, "output-limit {}", HexWord(pc)),
        }
    }
}
