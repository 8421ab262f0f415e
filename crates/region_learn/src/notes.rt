ghost use Rattle.std.specs.Prelude.{◌≡◌, ◌==◌, ◌&&◌, ◌||◌, ℕ, ◌<◌, IfErr, OnOk, Some};
ghost use Rattle.rv32im_machine.specs.Playing.{IsPlace};
ghost use Rattle.enclosure_regions.specs.declared.break_kinds.Place.{Place as ThePlace};
ghost use Rattle.enclosure_regions.specs.Breaks.{has_changed};
ghost use Rattle.region_learn.specs.Private.Marks.{has_bit as has_bit_of};
ghost use Rattle.region_learn.specs.Private.Notes.{Noted, has_place};
ghost use Rattle.region_learn.specs.Written.{is_number_slot, is_written_place};

use crate::bits::with_bit;
use crate::byte_marks::ByteMarks;
use flow_base::{Registers, Slot};
use rv32im_machine::{Aim, Passer, Passing, Place, Seen, Shape, Source};

/// Why a turn is stopped before its end.
#[derive(Clone, Copy)]
pub(crate) enum Halt {
    /// It is a call.
    Call,
    /// There is not enough memory.
    Memory,
}

/// What is noted of a region.
#[derive(Drop)]
pub(crate) struct Notes {
    /// The region's number.
    pub region: u16,
    /// The lowest address of guest memory.
    pub base: u32,
    /// A bit for each register that an instruction inside the region wrote.
    pub written: u32,
    /// A bit for each register that had not its value of the entry at some leave.
    pub changed: u32,
    /// The bytes that an instruction inside the region wrote.
    pub bytes: ByteMarks,
}

/// Whether a slot is that of the number of a call.
fn is_number(slot: Slot) -> bool
    ensures { result ≡ is_number_slot slot }
{
    match slot {
        Slot::Number => true,
        _ => false,
    }
}

/// The word with the bit of a register (below 32), if its values before and after differ.
fn with_difference(word: u32, before: &Registers, after: &Registers, register: u8) -> u32
    requires { register < 32 }
    ensures { (other : ℕ) → has_bit_of result other ≡
        (has_bit_of word other || ((other == register) && has_changed before.now after.now register)) }
{
    if before.get(register) == after.get(register) {
        word
    } else {
        with_bit(word, u32::from(register))
    }
}

/// The word with a bit for each register whose values before and after differ.
fn with_changed(word: u32, before: &Registers, after: &Registers) -> u32
    ensures { (register : ℕ) → register < 32 → has_bit_of result register ≡
        (has_bit_of word register || has_changed before.now after.now register) }
{
    let mut changed = word;
    for register in 0..32 {
        changed = with_difference(changed, before, after, register);
    }
    changed
}

impl Notes {
    /// Notes one write to a place.
    pub(crate) fn note(&mut self, place: Place) -> Result<(), Halt>
        requires { IsPlace (Some self.old.base) place }
        ensures places { OnOk result ((other : ThePlace) →
            has_place self.new other ≡ (has_place self.old other || is_written_place other place)) }
        ensures err { IfErr result (λ halt. halt ≡ Halt.Memory) }
        ensures changed { self.new.changed ≡ self.old.changed }
        ensures region { self.new.region ≡ self.old.region }
        ensures base { self.new.base ≡ self.old.base }
    {
        match place {
            Place::Register(register) => self.written = with_bit(self.written, u32::from(register)),
            Place::Byte(address) => {
                if self.bytes.mark((address - self.base) as usize).is_err() {
                    return Err(Halt::Memory);
                }
            }
            Place::First | Place::Second => {}
        }
        Ok(())
    }

    /// Notes the registers that have not the values of the entry.
    pub(crate) fn note_leave(&mut self, before: &Registers, after: &Registers)
        ensures changed { (register : ℕ) → register < 32 →
            has_bit_of self.new.changed register ≡
            (has_bit_of self.old.changed register || has_changed before.now after.now register) }
        ensures written { self.new.written ≡ self.old.written }
        ensures bytes { self.new.bytes ≡ self.old.bytes }
        ensures region { self.new.region ≡ self.old.region }
        ensures base { self.new.base ≡ self.old.base }
    {
        self.changed = with_changed(self.changed, before, after);
    }
}

impl Passer for Notes {
    ghost use Rattle.std.specs.Prelude.{Some};
    ghost use Rattle.region_learn.specs.Private.Notes.{Noted, NotesPlay, noted_of, notes_Ended};

    type Stop = Halt;

    ghost Tape = { Noted };

    ghost tape = { λ notes. noted_of notes };

    ghost memory = { λ notes. Some notes.base };

    ghost Plays = { λ notes walk out. NotesPlay (noted_of notes) walk out };

    fn look(&mut self, _seen: Seen, _value: u32) -> Result<(), Halt> {
        Ok(())
    }

    fn pass(&mut self, passing: Passing) -> Result<u32, Halt> {
        if is_number(passing.point.slot) {
            return Err(Halt::Call);
        }
        match passing.aim {
            Aim::Put(place) => self.note(place)?,
            Aim::Decide => {}
            Aim::Give(_) => {}
        }
        Ok(passing.value)
    }

    fn move_to(
        &mut self,
        place: Place,
        _shape: Shape,
        _source: Source,
        _value: u32,
    ) -> Result<(), Halt> {
        self.note(place)?;
        Ok(())
    }

    fn save(&mut self) -> Result<(), Halt> {
        Ok(())
    }

    fn restore(&mut self, _registers: &[u8]) -> Result<bool, Halt> {
        Ok(false)
    }

    ghost at_end = { λ notes state. notes_Ended (noted_of notes) state };
}
