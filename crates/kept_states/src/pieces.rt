ghost use Rattle.std.specs.Prelude.{◌≡◌, [], ℕ, ◌+◌, ◌*◌, ◌<◌, ◌≤◌, length, slice_index, true, IfOk, IfSome};
ghost use Rattle.kept_states.specs.Pieces.{byte_in, Grows, IsPiece};

use crate::bytes::{PIECE, are_same_pieces, ended, mix_bytes};
use crate::number_table::{NumberTable, STEPS};
use flow_base::NoMemory;
use std::alloc::Global;
use std::marker::Model;

/// The number that stands for the pieces of guest memory, and after them those of masks, in the table of what was kept
/// last.
const LAST: usize = 131_072;

/// Different pieces of 256 bytes, one after another; contracts see the bytes. A piece with the same bytes as one that
/// is there is found mostly, and else there twice.
#[derive(Drop)]
pub struct Pieces {
    bytes: Vec<u8>,
    table: NumberTable,
    last: Vec<u32>,
}

impl Model for Pieces {
    ghost use Rattle.std.specs.Prelude.{◌≡◌, ℕ, ◌%◌, List, length};

    ghost Value = { List ℕ };

    ghost view = { λ p. p.bytes.items };

    ghost invariant = { λ p. length p.bytes.items % 256 ≡ 0 };
}

fn no_numbers(alloc: Global, count: usize) -> Result<Vec<u32>, NoMemory> {
    let numbers = vec![in alloc; 0; count]?;
    Ok(numbers)
}

/// Whether the piece of a number is one of those, and has these bytes.
fn has(pieces: &[u8], piece: u32, bytes: &[u8]) -> bool
    requires { length bytes.now ≡ 256 }
    ensures { result ≡ true → IsPiece pieces.now piece bytes.now }
{
    let from = piece as usize * PIECE;
    from + PIECE <= pieces.len() && are_same_pieces(&pieces[from..from + PIECE], bytes)
}

impl Pieces {
    /// No pieces. Its error is lack of memory.
    pub fn new(alloc: Global) -> Result<Pieces, NoMemory>
        ensures { IfOk result (λ pieces. pieces ≡ []) }
    {
        Ok(Pieces {
            bytes: Vec::new(alloc),
            table: NumberTable::new(alloc)?,
            last: no_numbers(alloc, LAST)?,
        })
    }

    /// The bytes of a piece.
    pub fn piece(&self, piece: u32) -> &[u8]
        requires { piece * 256 + 256 ≤ length self.now }
        ensures same { IsPiece self.now piece result.now }
        ensures length { length result.now ≡ 256 }
    {
        let from = piece as usize * PIECE;
        &self.bytes[from..from + PIECE]
    }

    /// How many bytes the pieces have.
    pub fn size(&self) -> usize
        ensures { result ≡ length self.now }
    {
        self.bytes.len()
    }

    fn found(&self, hash: u32, bytes: &[u8]) -> Option<u32>
        requires { length bytes.now ≡ 256 }
        ensures { IfSome result (λ piece. IsPiece self.now piece bytes.now) }
    {
        for step in 0..STEPS {
            match self.table.candidate(hash, step) {
                Ok(Some(piece)) => {
                    if has(self.bytes.as_slice(), piece, bytes) {
                        return Some(piece);
                    }
                }
                Ok(None) => {}
                Err(()) => return None,
            }
        }
        None
    }

    fn append(&mut self, hash: u32, bytes: &[u8]) -> Result<u32, NoMemory>
        requires { length bytes.now ≡ 256 }
        ensures kept { IfOk result (λ piece. IsPiece self.new piece bytes.now) }
        ensures grows { Grows self.old self.new }
    {
        let piece = self.bytes.len() / PIECE;
        if piece > 0xffff_fff0 {
            return Err(NoMemory);
        }
        self.bytes.extend_from_slice(bytes)?;
        self.table.insert(hash, piece as u32)?;
        Ok(piece as u32)
    }

    /// The number of a piece with these bytes. The one of the hint is looked at first; where none is found it is put at
    /// the end.
    pub fn keep(&mut self, hint: u32, bytes: &[u8]) -> Result<u32, NoMemory>
        requires { length bytes.now ≡ 256 }
        ensures kept { IfOk result (λ piece. IsPiece self.new piece bytes.now) }
        ensures grows { Grows self.old self.new }
    {
        if has(self.bytes.as_slice(), hint, bytes) {
            return Ok(hint);
        }
        let hash = ended(mix_bytes(0, bytes));
        match self.found(hash, bytes) {
            Some(piece) => Ok(piece),
            None => self.append(hash, bytes),
        }
    }

    /// The same, the hint being the piece that was kept last for a place, 0 to 131,071.
    pub fn keep_at(&mut self, place: usize, bytes: &[u8]) -> Result<u32, NoMemory>
        requires { length bytes.now ≡ 256 }
        ensures kept { IfOk result (λ piece. IsPiece self.new piece bytes.now) }
        ensures grows { Grows self.old self.new }
    {
        let hint = self.last_at(place);
        let piece = self.keep(hint, bytes)?;
        self.set_last(place, piece);
        Ok(piece)
    }

    fn last_at(&self, place: usize) -> u32 {
        match self.last.get(place) {
            Some(piece) => *piece,
            None => 0,
        }
    }

    fn set_last(&mut self, place: usize, piece: u32)
        ensures { self.new ≡ self.old }
    {
        if place < self.last.len() {
            self.last[place] = piece;
        }
    }
}
