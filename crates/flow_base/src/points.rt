ghost use Rattle.std.specs.Prelude.{◌≡◌, ◌++◌, IfSome, None};
ghost use Rattle.std.specs.Fmt.{decimal};
ghost use Rattle.flow_base.specs.Points.{is_output_slot, is_slot, slot_number, slot_text, width_of};

use crate::hex_words::HexWord;
use std::fmt;

/// A place within a turn at which a value passes. Known slots (see [`Slot::is_known`]) are ordered by their number (see
/// [`Slot::number`]). The registers of `OutReg` are 1 to 31 and the ranges of `OutRange` 0 to 63; a call that needs
/// this says so.
#[derive(Clone, Copy, Debug, PartialEq, Eq, PartialOrd, Ord, Hash)]
pub enum Slot {
    /// `u1`: the value of rs1
    First,
    /// `u2`: the value of rs2
    Second,
    /// `ad`: the address of a load or store, or the target of JALR with bit 0 cleared
    Address,
    /// `rs`: the result
    Result,
    /// `de`: 1 where the branch is taken, else 0
    Decision,
    /// `nr`: the number of a call
    Number,
    /// `a0`: the first argument of a call
    Arg0,
    /// `a1`: the second argument of a call
    Arg1,
    /// `a2`: the third argument of a call
    Arg2,
    /// `in`: one secret byte that is read
    SecretIn,
    /// `ou`: one byte that is written
    ByteOut,
    /// `st`: the exit status
    Status,
    /// `x1` to `x31`: an output register of a region
    OutReg(u8),
    /// `r0` to `r63`: one byte of a range of a region
    OutRange(u8),
}

/// A slot of a place of the program: region (0 outside regions), address of the instruction, slot. Points with known
/// slots are ordered by region, address and slot number. Its fields may hold any numbers; [`Slot`] says which are
/// slots.
#[derive(Clone, Copy, Debug, PartialEq, Eq, PartialOrd, Ord, Hash)]
pub struct Point {
    /// The number of the region, 0 outside of regions.
    pub region: u16,
    /// The address of the instruction.
    pub address: u32,
    /// The place within a turn of the instruction.
    pub slot: Slot,
}

impl Slot {
    /// The number by which known slots are ordered, 1 to 107.
    pub fn number(self) -> u16
        ensures { result ≡ slot_number self }
    {
        match self {
            Slot::First => 1,
            Slot::Second => 2,
            Slot::Address => 3,
            Slot::Result => 4,
            Slot::Decision => 5,
            Slot::Number => 6,
            Slot::Arg0 => 7,
            Slot::Arg1 => 8,
            Slot::Arg2 => 9,
            Slot::SecretIn => 10,
            Slot::ByteOut => 11,
            Slot::Status => 12,
            Slot::OutReg(register) => 12 + u16::from(register),
            Slot::OutRange(range) => 44 + u16::from(range),
        }
    }

    /// The mask of the bits that a value of the slot may have.
    pub fn width(self) -> u32
        ensures { result ≡ width_of self }
    {
        match self {
            Slot::Decision => 1,
            Slot::SecretIn | Slot::ByteOut | Slot::Status | Slot::OutRange(_) => 0xff,
            _ => 0xffff_ffff,
        }
    }

    /// Whether the slot is one that a turn can pass: the registers of outputs are 1 to 31 and their ranges 0 to 63.
    pub fn is_known(self) -> bool
        ensures { result ≡ is_slot self }
    {
        match self {
            Slot::OutReg(register) => 1 <= register && register <= 31,
            Slot::OutRange(range) => range < 64,
            _ => true,
        }
    }

    /// Whether a value of the slot is an output of a region.
    pub fn is_output(self) -> bool
        ensures { result ≡ is_output_slot self }
    {
        match self {
            Slot::OutReg(_) | Slot::OutRange(_) => true,
            _ => false,
        }
    }

    /// The word of the slot, with the number after it where it has one.
    pub(crate) fn parts(self) -> (&'static str, Option<u8>)
        ensures word { result.1 ≡ None → slot_text self ≡ result.0.now }
        ensures number { IfSome result.1 (λ number. slot_text self ≡ result.0.now ++ decimal number) }
    {
        match self {
            Slot::First => ("u1", None),
            Slot::Second => ("u2", None),
            Slot::Address => ("ad", None),
            Slot::Result => ("rs", None),
            Slot::Decision => ("de", None),
            Slot::Number => ("nr", None),
            Slot::Arg0 => ("a0", None),
            Slot::Arg1 => ("a1", None),
            Slot::Arg2 => ("a2", None),
            Slot::SecretIn => ("in", None),
            Slot::ByteOut => ("ou", None),
            Slot::Status => ("st", None),
            Slot::OutReg(register) => ("x", Some(register)),
            Slot::OutRange(range) => ("r", Some(range)),
        }
    }
}

impl fmt::Display for Slot {
    ghost use Rattle.std.specs.Prelude.{Some};
    ghost use Rattle.flow_base.specs.Points.{slot_text};

    ghost output = { λ slot. Some (slot_text slot) };

    fn fmt<W: fmt::Write>(&self, f: &mut fmt::Formatter<W>) -> fmt::Result {
        let (word, number) = self.parts();
        match number {
            Some(number) => write!(f, "{word}{number}"),
            None => f.write_str(word),
        }
    }
}

impl fmt::Display for Point {
    ghost use Rattle.std.specs.Prelude.{Some};
    ghost use Rattle.flow_base.specs.Points.{point_text};

    ghost output = { λ point. Some (point_text point) };

    fn fmt<W: fmt::Write>(&self, f: &mut fmt::Formatter<W>) -> fmt::Result {
        let region = self.region;
        let address = HexWord(self.address);
        let slot = self.slot;
        write!(f, "{region} {address} {slot}")
    }
}
