ghost use Rattle.std.specs.Prelude.{◌≡◌, true};

use crate::stepping::{Fault, Stepped};
use flow_base::{Bytes, Registers};
use std::marker::Model;

/// What a machine is between two turns but for guest memory, the setting and the secret. [`Machine::standing`] keeps
/// it, and [`Machine::stand`] puts a machine back into it.
///
/// [`Machine::standing`]: crate::Machine::standing
/// [`Machine::stand`]: crate::Machine::stand
#[derive(Drop)]
pub struct Standing {
    pub(crate) registers: Registers,
    pub(crate) kept: Registers,
    pub(crate) pc: u32,
    pub(crate) public_at: usize,
    pub(crate) secret_at: usize,
    pub(crate) current_break: u32,
    pub(crate) output: Bytes,
    pub(crate) mode: Stepped,
    pub(crate) region: u16,
}

impl Model for Standing {
    ghost use Rattle.rv32im_machine.specs.Standing.{Stand};

    ghost Value = { Stand };

    ghost view = { λ s. record {
      control = record {
        pc = s.pc;
        public_at = s.public_at;
        secret_at = s.secret_at;
        current_break = s.current_break;
        output = s.output;
        mode = s.mode;
        region = s.region;
      };
      registers = s.registers;
      kept = s.kept;
    } };
}

/// Whether two faults are the same.
fn is_same_fault(first: Fault, second: Fault) -> bool
    ensures { result ≡ true → first ≡ second }
{
    first == second
}

/// Whether two modes are the same.
fn is_same_mode(first: Stepped, second: Stepped) -> bool
    ensures { result ≡ true → first ≡ second }
{
    match (first, second) {
        (Stepped::Ran, Stepped::Ran) => true,
        (Stepped::Exited(one), Stepped::Exited(other)) => one == other,
        (Stepped::Stopped(one), Stepped::Stopped(other)) => is_same_fault(one, other),
        _ => false,
    }
}

/// Whether two lists of bytes are the same.
#[tactic(auto, using(crate::proofs::Standings::bytes_same))]
fn are_same_bytes(first: &[u8], second: &[u8]) -> bool
    ensures { result ≡ true → first.now ≡ second.now }
{
    first == second
}

impl Standing {
    /// Whether this is what another is, in all that it keeps. It takes no memory.
    pub fn is_same(&self, other: &Standing) -> bool
        ensures { result ≡ true → self.now ≡ other.now }
    {
        self.pc == other.pc
            && self.public_at == other.public_at
            && self.secret_at == other.secret_at
            && self.current_break == other.current_break
            && self.region == other.region
            && is_same_mode(self.mode, other.mode)
            && self.registers.is_same(&other.registers)
            && self.kept.is_same(&other.kept)
            && are_same_bytes(self.output.as_slice(), other.output.as_slice())
    }

    /// The program counter, an address.
    pub fn pc(&self) -> u32
        ensures { result ≡ self.now.control.pc }
    {
        self.pc
    }

    /// The 32 registers.
    pub fn registers(&self) -> &Registers
        ensures { result.now ≡ self.now.registers }
    {
        &self.registers
    }

    /// The 32 registers as they were when they were last kept, at the entry of a region.
    pub fn kept(&self) -> &Registers
        ensures { result.now ≡ self.now.kept }
    {
        &self.kept
    }

    /// The bytes that were written so far.
    pub fn output(&self) -> &[u8]
        ensures { result.now ≡ self.now.control.output }
    {
        self.output.as_slice()
    }
}
