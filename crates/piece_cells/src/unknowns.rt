//! Unknown bytes, and which values each may have.

ghost use Rattle.std.specs.Prelude.{◌≡◌, All, IfOk};
ghost use Rattle.piece_cells.specs.Cells.{Bytes, Holds, IsIn, Knows, Renames};

use crate::byte_sets::ByteSet;
use flow_base::NoMemory;
use std::alloc::Global;
use std::marker::Model;

/// Where an unknown byte was named: at a register (0 to 31) or at the byte of memory at an address.
#[derive(Clone, Copy, PartialEq, Eq)]
pub enum Origin {
    Register(u8),
    Byte(u32),
}

/// An unknown byte, told by where it was named and by a number.
#[derive(Clone, Copy, PartialEq, Eq)]
pub struct Unknown {
    /// Where it was named.
    pub origin: Origin,
    /// Its number among those that were named there.
    pub number: u32,
}

/// What is known of an unknown byte: it is in a set.
#[derive(Clone, Copy)]
pub struct Known {
    /// The unknown byte.
    pub unknown: Unknown,
    /// The bytes that it may be.
    pub set: ByteSet,
}

/// Whether something is known of an unknown byte.
fn is_listed(known: &[Known], unknown: Unknown) -> bool {
    for listed in known {
        if listed.unknown == unknown {
            return true;
        }
    }
    false
}

/// What is known, with the set in place of the old one where it is of this unknown byte.
fn replaced(known: Known, unknown: Unknown, set: ByteSet) -> Known
    ensures { (before now : Bytes) → Renames unknown set before now → IsIn before known → IsIn now result }
{
    if known.unknown == unknown {
        Known { unknown, set }
    } else {
        known
    }
}

fn replace_each(known: &mut [Known], unknown: Unknown, set: ByteSet)
    ensures { (before now : Bytes) → Renames unknown set before now → All (IsIn before) known.old →
        All (IsIn now) known.new }
{
    for at in 0..known.len() {
        known[at] = replaced(known[at], unknown, set);
    }
}

/// What is known of the unknown bytes; one of which nothing is known may be any byte.
#[derive(Drop)]
pub struct Unknowns {
    known: Vec<Known>,
}

impl Model for Unknowns {
    ghost use Rattle.std.specs.Prelude.{List as Seq};
    ghost use Rattle.piece_cells.specs.declared.unknowns.Known.{Known as TheKnown};

    ghost Value = { Seq TheKnown };

    ghost view = { λ unknowns. unknowns.known.items };
}

impl Unknowns {
    /// Nothing is known. It takes no memory.
    pub fn new(alloc: Global) -> Unknowns {
        Unknowns {
            known: Vec::new(alloc),
        }
    }

    /// A copy. The one error is `NoMemory`.
    pub fn copied(&self, alloc: Global) -> Result<Unknowns, NoMemory>
        ensures { IfOk result (λ copy. copy ≡ self.now) }
    {
        let known = Vec::from_slice(alloc, self.known.as_slice()).map_err(|_| NoMemory)?;
        Ok(Unknowns { known })
    }

    /// The bytes that an unknown byte may be.
    pub fn set_of(&self, unknown: Unknown) -> ByteSet
        ensures { (bytes : Bytes) → Knows self.now bytes → Holds result (bytes unknown) }
    {
        for known in self.known.as_slice() {
            if known.unknown == unknown {
                return known.set;
            }
        }
        ByteSet::all()
    }

    /// Lets an unknown byte be the bytes of a set, whatever was known of it. The one error is `NoMemory`.
    pub fn put(&mut self, unknown: Unknown, set: ByteSet) -> Result<(), NoMemory> {
        let is_listed = is_listed(self.known.as_slice(), unknown);
        replace_each(self.known.as_mut_slice(), unknown, set);
        if !is_listed {
            self.known
                .push(Known { unknown, set })
                .map_err(|_| NoMemory)?;
        }
        Ok(())
    }

    /// Leaves an unknown byte only the bytes of a set; whether there are any that it may still be. The one error is
    /// `NoMemory`.
    pub fn narrow(&mut self, unknown: Unknown, set: ByteSet) -> Result<bool, NoMemory> {
        let left = self.set_of(unknown).meet(set);
        self.put(unknown, left)?;
        Ok(!left.is_empty())
    }

    /// What is known where either this or the other is. The one error is `NoMemory`.
    pub fn joined(&self, alloc: Global, other: &Unknowns) -> Result<Unknowns, NoMemory> {
        let mut joined = Vec::new(alloc);
        for known in self.known.as_slice() {
            let set = known.set.join(other.set_of(known.unknown));
            joined
                .push(Known {
                    unknown: known.unknown,
                    set,
                })
                .map_err(|_| NoMemory)?;
        }
        Ok(Unknowns { known: joined })
    }
}
