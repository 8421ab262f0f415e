ghost use Rattle.std.specs.Prelude.{◌≡◌, ◌+◌, ◌<◌, ◌≤◌, IfSome, vec_len};

use crate::entries::Entry;
use crate::joining::join;
use crate::pieces::Piece;
use flow_base::NoMemory;
use std::alloc::Global;

/// How many pieces wait at one stack pointer and one place at most.
const WAITING: usize = 64;

/// By what pieces are found alike: which registers have a mask, and the values of the others.
#[derive(Clone, Copy, PartialEq, Eq)]
struct Likeness {
    masked: u32,
    values: [u32; 32],
}

/// A piece that waits, with its stack pointer.
#[derive(Drop)]
struct Waiting {
    stack: u32,
    likeness: Likeness,
    piece: Piece,
}

/// The pieces that wait: the one that goes on next stands last. It has the lowest stack pointer, of these the lowest
/// place, and of these it came first.
#[derive(Drop)]
pub(crate) struct Front {
    waiting: Vec<Waiting>,
}

/// The stack pointer of a piece.
#[inline(always)]
fn stack_of(piece: &Piece) -> u32 {
    piece.bits(2).value
}

fn likeness_of(piece: &Piece) -> Likeness {
    let mut masked = 0u32;
    let mut values = [0; 32];
    for register in 0..32u8 {
        let bits = piece.bits(register);
        if bits.mask != 0 {
            masked |= 1 << u32::from(register);
        } else {
            values[register as usize] = bits.value;
        }
    }
    Likeness { masked, values }
}

impl Front {
    /// Nothing waits.
    pub fn new(alloc: Global) -> Front {
        Front {
            waiting: Vec::new(alloc),
        }
    }

    /// Whether a piece goes on before all that wait, and is not joined to one of them.
    #[inline(always)]
    pub fn comes_first(&self, piece: &Piece) -> bool {
        match self.waiting.last() {
            Some(next) => {
                let stack = stack_of(piece);
                stack < next.stack || (stack == next.stack && piece.pc < next.piece.pc)
            }
            None => true,
        }
    }

    /// The piece that goes on next.
    pub fn pop(&mut self) -> Option<Piece> {
        match self.waiting.pop() {
            Some(Waiting { piece, .. }) => Some(piece),
            None => None,
        }
    }

    /// How many of those that wait go on later than a piece that comes now and those at its place.
    fn count_later(&self, stack: u32, pc: u32) -> usize
        ensures { result ≤ vec_len self.now.waiting }
    {
        let mut low = 0;
        let mut high = self.waiting.len();
        while low < high {
            let middle = low + (high - low) / 2;
            let waiting = &self.waiting[middle];
            if stack < waiting.stack || (stack == waiting.stack && pc < waiting.piece.pc) {
                low = middle + 1;
            } else {
                high = middle;
            }
        }
        low
    }

    /// How many wait at the same stack pointer and place, from an index on.
    fn count_at(&self, from: usize, stack: u32, pc: u32) -> usize
        requires { from ≤ vec_len self.now.waiting }
        ensures { from + result ≤ vec_len self.now.waiting }
    {
        for at in from..self.waiting.len() {
            let waiting = &self.waiting[at];
            if waiting.stack != stack || waiting.piece.pc != pc {
                return at - from;
            }
        }
        self.waiting.len() - from
    }

    /// The index of the first that came of so many from an index on that is alike.
    fn alike(&self, from: usize, count: usize, likeness: &Likeness) -> Option<usize>
        requires { from + count ≤ vec_len self.now.waiting }
        ensures { IfSome result (λ at. at < vec_len self.now.waiting) }
    {
        for offset in 0..count {
            let at = from + (count - 1 - offset);
            if self.waiting[at].likeness == *likeness {
                return Some(at);
            }
        }
        None
    }

    /// A piece is joined to one that waits.
    fn join_at(
        &mut self,
        alloc: Global,
        entry: &Entry<'_>,
        at: usize,
        piece: &Piece,
    ) -> Result<(), NoMemory>
        requires { at < vec_len self.old.waiting }
    {
        let joined = join(alloc, entry, &self.waiting[at].piece, piece)?;
        self.waiting[at].likeness = likeness_of(&joined);
        self.waiting[at].piece = joined;
        Ok(())
    }

    /// A piece comes: it is joined to one that waits at the same stack pointer and place, or waits too.
    pub fn add(&mut self, alloc: Global, entry: &Entry<'_>, piece: Piece) -> Result<(), NoMemory> {
        let stack = stack_of(&piece);
        let likeness = likeness_of(&piece);
        let from = self.count_later(stack, piece.pc);
        let count = self.count_at(from, stack, piece.pc);
        if let Some(at) = self.alike(from, count, &likeness) {
            return self.join_at(alloc, entry, at, &piece);
        }
        if count >= WAITING {
            return self.join_at(alloc, entry, from, &piece);
        }
        let waiting = Waiting {
            stack,
            likeness,
            piece,
        };
        match self.waiting.insert(from, waiting) {
            Ok(()) => Ok(()),
            Err(_) => Err(NoMemory),
        }
    }
}
