ghost use Rattle.std.specs.Prelude.{◌≡◌, ◌<◌, IfOk, length, vec_len};

use crate::entries::Entry;
use crate::memories::Memory;
use crate::vectors::push;
use flow_base::NoMemory;
use piece_cells::{Bits, Cell, Unknowns, bits_of};
use std::alloc::Global;

/// What stands for many real states that came into a region: what is known of their registers, bytes and unknown bytes,
/// and how many turns they made since the entry at most.
#[derive(Drop)]
pub(crate) struct Piece {
    pub registers: Vec<Cell>,
    pub memory: Memory,
    pub unknowns: Unknowns,
    pub pc: u32,
    /// The turns made, the entry among them.
    pub turns: u32,
    ghost all_registers: { vec_len registers ≡ 32 },
}

/// The 32 registers at the entry.
fn entry_registers(alloc: Global, entry: &Entry<'_>) -> Result<Vec<Cell>, NoMemory>
    ensures { IfOk result (λ registers. vec_len registers ≡ 32) }
{
    let mut registers = Vec::with_capacity(alloc, 32)?;
    for register in 0..32u8 {
        let bits = Bits {
            value: entry.machine.register(register),
            mask: entry.shadow.reg(register).mask,
        };
        push(&mut registers, Cell::Bits(bits))?;
    }
    Ok(registers)
}

/// The same cells once more.
pub(crate) fn copied_cells(alloc: Global, cells: &[Cell]) -> Result<Vec<Cell>, NoMemory>
    ensures { IfOk result (λ copies. vec_len copies ≡ length cells.now) }
{
    let mut copies = Vec::with_capacity(alloc, cells.len())?;
    for cell in cells {
        push(&mut copies, cell.clone()?)?;
    }
    Ok(copies)
}

impl Piece {
    /// The piece that stands for the states that agree with the entry outside its masks, behind the turn of the entry.
    pub fn at_entry(alloc: Global, entry: &Entry<'_>) -> Result<Piece, NoMemory> {
        Ok(Piece {
            registers: entry_registers(alloc, entry)?,
            memory: Memory::new(alloc),
            unknowns: Unknowns::new(alloc),
            pc: entry.region.enter,
            turns: 1,
        })
    }

    /// The same piece once more.
    pub fn copied(&self, alloc: Global) -> Result<Piece, NoMemory> {
        Ok(Piece {
            registers: copied_cells(alloc, self.registers.as_slice())?,
            memory: self.memory.copied(alloc)?,
            unknowns: self.unknowns.copied(alloc)?,
            pc: self.pc,
            turns: self.turns,
        })
    }

    /// What a register is.
    #[inline(always)]
    pub fn register(&self, register: u8) -> &Cell
        requires { register < 32 }
    {
        &self.registers[register as usize]
    }

    /// What a register is, once more.
    pub fn register_copy(&self, register: u8) -> Result<Cell, NoMemory>
        requires { register < 32 }
    {
        Ok(self.registers[register as usize].clone()?)
    }

    /// Sets a register; a write to x0 is none.
    #[inline(always)]
    pub fn set_register(&mut self, register: u8, cell: Cell)
        requires { register < 32 }
    {
        if register != 0 {
            self.registers[register as usize] = cell;
        }
    }

    /// The bits of a register.
    #[inline(always)]
    pub fn bits(&self, register: u8) -> Bits
        requires { register < 32 }
    {
        match &self.registers[register as usize] {
            Cell::Bits(bits) => *bits,
            table => bits_of(table, &self.unknowns),
        }
    }
}
