ghost use Rattle.std.specs.Prelude.{◌≡◌, IfOk, IsTrue};
ghost use Rattle.rv32im_decode.specs.Encoding.{InRange};
ghost use Rattle.rv32im_decode.specs.Decoding.{decoded};
ghost use Rattle.rv32im_machine.specs.Parts.{is_branch, is_load, is_store, has_address};
ghost use Rattle.rv32im_machine.specs.Parts.{read_as, fetch_part, first_part, second_part, address_part, load_part};
ghost use Rattle.rv32im_machine.specs.Parts.{store_part, result_part, decision_part};

use crate::loads_stores::loaded;
use crate::machines::Machine;
use crate::stepping::Fault;
use rv32im_decode::{Instr, address, decode, target, upper};

/// The instruction of the word at `pc`.
fn read_word(pc: u32, word: u32) -> Result<Instr, Fault>
    ensures read { result ≡ read_as (decoded word) pc word }
    ensures range { IfOk result (λ instr. InRange instr) }
{
    match decode(word) {
        Some(instr) => Ok(instr),
        None => Err(Fault::Illegal { pc, word }),
    }
}

impl Machine {
    /// The instruction at the program counter; `FetchOutside` where its four bytes are not inside guest memory, and
    /// `Illegal` where they are no instruction of RV32IM (RISC-V Unprivileged ISA). It takes no memory.
    pub fn fetch(&self) -> Result<Instr, Fault>
        ensures fetch { result ≡ fetch_part self.now }
        ensures range { IfOk result (λ instr. InRange instr) }
    {
        let pc = self.pc();
        if self.is_inside(pc, 4) {
            read_word(pc, self.word(pc))
        } else {
            Err(Fault::FetchOutside { pc })
        }
    }

    /// The values of rs1 and of rs2. The first is 0 where the instruction's turn does not pass the slot First, and the
    /// second is 0 where it does not pass the slot Second. It takes no memory.
    pub fn uses(&self, instr: &Instr) -> (u32, u32)
        requires { InRange instr.now }
        ensures first { result.0 ≡ first_part instr.now self.now.store }
        ensures second { result.1 ≡ second_part instr.now self.now.store }
    {
        match *instr {
            Instr::Jalr { rs1, .. } => (self.register(rs1), 0),
            Instr::Branch { rs1, rs2, .. } => (self.register(rs1), self.register(rs2)),
            Instr::Load { rs1, .. } => (self.register(rs1), 0),
            Instr::Store { rs1, rs2, .. } => (self.register(rs1), self.register(rs2)),
            Instr::OpImm { rs1, .. } => (self.register(rs1), 0),
            Instr::Op { rs1, rs2, .. } => (self.register(rs1), self.register(rs2)),
            Instr::Lui { .. }
            | Instr::Auipc { .. }
            | Instr::Jal { .. }
            | Instr::Fence { .. }
            | Instr::Ecall
            | Instr::Ebreak => (0, 0),
        }
    }

    /// The address of a load or store, or the target of JALR, where `first` is the value of rs1 that has gone on: the
    /// value of the slot Address (RISC-V Unprivileged ISA, "Load and Store Instructions" and "Unconditional Jumps"). It
    /// takes no memory.
    pub fn address(instr: &Instr, first: u32) -> u32
        requires { IsTrue (has_address instr.now) }
        ensures { result ≡ address_part instr.now first }
    {
        match *instr {
            Instr::Jalr { imm, .. } => target(first, imm),
            Instr::Load { imm, .. } => address(first, imm),
            Instr::Store { imm, .. } => address(first, imm),
            _ => 0,
        }
    }

    /// The value that a load reads from an address, extended to a word (RISC-V Unprivileged ISA, "Load and Store
    /// Instructions"); `LoadOutside` where its bytes are not inside guest memory. It takes no memory.
    pub fn load(&self, instr: &Instr, address: u32) -> Result<u32, Fault>
        requires { IsTrue (is_load instr.now) }
        ensures { result ≡ load_part instr.now address self.now }
    {
        let Instr::Load { kind, .. } = *instr else {
            return Ok(0);
        };
        if self.is_inside(address, kind.size()) {
            Ok(loaded(self, kind, address))
        } else {
            let pc = self.pc();
            Err(Fault::LoadOutside { pc, address })
        }
    }

    /// Whether a store may write to an address; `StoreOutside` where its bytes are not inside guest memory. It takes no
    /// memory.
    pub fn store_check(&self, instr: &Instr, address: u32) -> Result<(), Fault>
        requires { IsTrue (is_store instr.now) }
        ensures { result ≡ store_part instr.now address self.now }
    {
        let Instr::Store { kind, .. } = *instr else {
            return Ok(());
        };
        if self.is_inside(address, kind.size()) {
            Ok(())
        } else {
            let pc = self.pc();
            Err(Fault::StoreOutside { pc, address })
        }
    }

    /// What an instruction at `pc` writes to rd, also where rd is x0: the value of the slot Result, which is `loaded`
    /// for a load; for LUI and AUIPC their value, and for JAL and JALR the address of the next instruction; 0 for a
    /// branch, a store, FENCE, ECALL and EBREAK. The values of rs1 and rs2 that have gone on are `first` and `second`.
    /// It takes no memory.
    pub fn result(instr: &Instr, pc: u32, first: u32, second: u32, loaded: u32) -> u32
        ensures { result ≡ result_part instr.now pc first second loaded }
    {
        match *instr {
            Instr::Lui { imm, .. } => upper(imm),
            Instr::Auipc { imm, .. } => pc.wrapping_add(upper(imm)),
            Instr::Jal { .. } | Instr::Jalr { .. } => pc.wrapping_add(4),
            Instr::Load { .. } => loaded,
            Instr::OpImm { kind, imm, .. } => kind.operation().result(first, imm.cast_unsigned()),
            Instr::Op { kind, .. } => kind.result(first, second),
            Instr::Branch { .. }
            | Instr::Store { .. }
            | Instr::Fence { .. }
            | Instr::Ecall
            | Instr::Ebreak => 0,
        }
    }

    /// Whether a branch is taken, where `first` and `second` are the values of rs1 and rs2 that have gone on (RISC-V
    /// Unprivileged ISA, "Conditional Branches"). It takes no memory.
    pub fn decision(instr: &Instr, first: u32, second: u32) -> bool
        requires { IsTrue (is_branch instr.now) }
        ensures { result ≡ decision_part instr.now first second }
    {
        match *instr {
            Instr::Branch { kind, .. } => kind.is_taken(first, second),
            _ => false,
        }
    }
}
