//! The bytes of guest memory in two parts: the lower one is made as far as it was reached, the upper one is whole.

ghost use Rattle.std.specs.Prelude.{◌≡◌, ◌+◌, ◌-◌, ◌*◌, ◌/◌, ◌%◌, ◌<◌, ◌≤◌, ℕ, [], ◌∷◌, IfOk, length, slice_index, slice_set, vec_len, vec_capacity, List};
ghost use Rattle.flow_base.specs.Guests.{memory_size};
ghost use Rattle.rv32im_machine.specs.Private.SparseBytes.{low_room, high_size, spread};
ghost use Rattle.rv32im_machine.specs.Standing.{piece_size};
ghost use Rattle.rv32im_machine.specs.Start.{zeros, laid_at};

use flow_base::NoMemory;
use std::alloc::Global;
use std::marker::Model;

/// The bytes of a page.
pub(crate) const PAGE_SIZE: usize = 4096;

/// The bytes of a piece of guest memory.
pub const PIECE_SIZE: usize = 256;

/// The bytes that the lower part has room for.
const LOW_ROOM: usize = 0xff_0000;

/// The bytes of the upper part, where a stack begins.
const HIGH_SIZE: usize = 0x1_0000;

/// A piece whose bytes are 0.
const NO_PIECE: [u8; 256] = [0; 256];

/// The 16 MiB of guest memory; contracts see the bytes. The system makes a page of memory when it is first written, so
/// what lies between the highest byte that was reached and the upper part costs no time.
#[derive(Drop)]
pub(crate) struct SparseBytes {
    low: Vec<u8>,
    high: Vec<u8>,
}

impl Model for SparseBytes {
    ghost use Rattle.std.specs.Prelude.{◌≡◌, ◌≤◌, ◌%◌, ℕ, List, vec_len, vec_capacity};
    ghost use Rattle.rv32im_machine.specs.Private.SparseBytes.{low_room, high_size, spread};

    ghost Value = { List ℕ };

    ghost view = { λ m. spread m.low.items m.high.items };

    ghost invariant = { λ m. (vec_len m.low ≤ low_room) × (low_room ≤ vec_capacity m.low)
        × (vec_len m.low % 4096 ≡ 0) × (vec_len m.high ≡ high_size) };
}

/// So many zeros.
#[tactic(auto, unfolding(crate::specs::Start::zeros))]
fn zeroed(alloc: Global, count: usize) -> Result<Vec<u8>, NoMemory>
    ensures zeros { IfOk result (λ bytes. bytes.items ≡ zeros count) }
    ensures length { IfOk result (λ bytes. vec_len bytes ≡ count) }
{
    Ok(vec![in alloc; 0; count]?)
}

/// Lays bytes over others from an index on.
fn lay_over(under: &mut Vec<u8>, index: usize, bytes: &[u8])
    requires { index + length bytes.now ≤ vec_len under.old }
    ensures laid { under.new.items ≡ laid_at index bytes.now under.old.items }
    ensures length { vec_len under.new ≡ vec_len under.old }
    ensures room { vec_capacity under.new ≡ vec_capacity under.old }
{
    under[index..index + bytes.len()].copy_from_slice(bytes);
}

/// Zeroes so many bytes from an index on.
#[tactic(auto, unfolding(crate::specs::Start::zeros))]
fn zero(bytes: &mut Vec<u8>, from: usize, count: usize)
    requires { from + count ≤ vec_len bytes.old }
    ensures zeros { bytes.new.items ≡ laid_at from (zeros count) bytes.old.items }
    ensures length { vec_len bytes.new ≡ vec_len bytes.old }
    ensures room { vec_capacity bytes.new ≡ vec_capacity bytes.old }
{
    bytes[from..from + count].fill(0);
}

/// Makes the lower part up to an index at least.
#[tactic(auto, using(crate::proofs::Spreading::grown_spread))]
fn reach(low: &mut Vec<u8>, end: usize)
    requires end { end ≤ low_room }
    requires room { low_room ≤ vec_capacity low.old }
    requires low { vec_len low.old ≤ low_room }
    requires pages { vec_len low.old % 4096 ≡ 0 }
    ensures bytes { (high : List ℕ) → spread low.new.items high ≡ spread low.old.items high }
    ensures reached { end ≤ vec_len low.new }
    ensures room { low_room ≤ vec_capacity low.new }
    ensures low { vec_len low.new ≤ low_room }
    ensures pages { vec_len low.new % 4096 ≡ 0 }
{
    if low.len() < end {
        let _ = low.resize(end.next_multiple_of(PAGE_SIZE), 0);
    }
}

impl SparseBytes {
    /// All bytes are 0. `NoMemory` where there is not enough; no later call takes memory.
    #[tactic(auto, using(crate::proofs::Spreading::spread_zeros))]
    pub(crate) fn new(alloc: Global) -> Result<SparseBytes, NoMemory>
        ensures { IfOk result (λ bytes. bytes ≡ zeros memory_size) }
    {
        let low = Vec::with_capacity(alloc, LOW_ROOM)?;
        let high = zeroed(alloc, HIGH_SIZE)?;
        Ok(SparseBytes { low, high })
    }

    /// Nothing is done; a caller learns how many bytes there are.
    #[tactic(auto, using(crate::proofs::Spreading::spread_length))]
    pub(crate) fn tell_length(&self)
        ensures { length self.now ≡ memory_size }
    {
        let _ = &self.low;
    }

    /// The byte with this index.
    #[inline(always)]
    #[tactic(auto, using(crate::proofs::Spreading::low_byte, crate::proofs::Spreading::gap_byte, crate::proofs::Spreading::high_byte))]
    pub(crate) fn byte(&self, index: usize) -> u8
        requires { index < memory_size }
        ensures { result ≡ slice_index self.now index }
    {
        if index < self.low.len() {
            self.low[index]
        } else if index < LOW_ROOM {
            0
        } else {
            self.high[index - LOW_ROOM]
        }
    }

    /// The four bytes from an index on.
    #[inline(always)]
    #[tactic(auto, using(crate::proofs::Spreading::low_byte))]
    pub(crate) fn four(&self, index: usize) -> [u8; 4]
        requires { index + 4 ≤ memory_size }
        ensures { result ≡ slice_index self.now index ∷ slice_index self.now (index + 1)
            ∷ slice_index self.now (index + 2) ∷ slice_index self.now (index + 3) ∷ [] }
    {
        if index + 4 <= self.low.len() {
            [
                self.low[index],
                self.low[index + 1],
                self.low[index + 2],
                self.low[index + 3],
            ]
        } else {
            self.four_high(index)
        }
    }

    /// The four bytes from an index on, which may lie in the upper part.
    #[tactic(auto, using(crate::proofs::Spreading::high_byte))]
    fn four_high(&self, index: usize) -> [u8; 4]
        requires { index + 4 ≤ memory_size }
        ensures { result ≡ slice_index self.now index ∷ slice_index self.now (index + 1)
            ∷ slice_index self.now (index + 2) ∷ slice_index self.now (index + 3) ∷ [] }
    {
        [
            self.byte(index),
            self.byte(index + 1),
            self.byte(index + 2),
            self.byte(index + 3),
        ]
    }

    /// Sets the byte with this index.
    #[inline(always)]
    #[tactic(auto, using(crate::proofs::Spreading::set_low, crate::proofs::Spreading::set_high))]
    pub(crate) fn set(&mut self, index: usize, value: u8)
        requires { index < memory_size }
        ensures { self.new ≡ slice_set self.old index value }
    {
        if index < self.low.len() {
            self.low[index] = value;
        } else if LOW_ROOM <= index {
            self.high[index - LOW_ROOM] = value;
        } else {
            self.set_first(index, value);
        }
    }

    /// Sets a byte of the lower part that may not be made.
    #[tactic(auto, using(crate::proofs::Spreading::set_low))]
    fn set_first(&mut self, index: usize, value: u8)
        requires { index < low_room }
        ensures { self.new ≡ slice_set self.old index value }
    {
        reach(&mut self.low, index + 1);
        self.low[index] = value;
    }

    /// Lays bytes over those from an index on.
    pub(crate) fn lay(&mut self, index: usize, bytes: &[u8])
        requires { index + length bytes.now ≤ memory_size }
        ensures bytes { self.new ≡ laid_at index bytes.now self.old }
        ensures length { length self.new ≡ memory_size }
    {
        if index + bytes.len() <= LOW_ROOM {
            self.lay_low(index, bytes);
        } else if LOW_ROOM <= index {
            self.lay_high(index, bytes);
        } else {
            self.lay_both(index, bytes);
        }
        self.tell_length();
    }

    /// Lays bytes over those from an index of the lower part on, up to one of the upper part.
    fn lay_both(&mut self, index: usize, bytes: &[u8])
        requires low { index ≤ low_room }
        requires high { low_room ≤ index + length bytes.now }
        requires fits { index + length bytes.now ≤ memory_size }
        ensures { self.new ≡ laid_at index bytes.now self.old }
    {
        self.tell_length();
        let (front, back) = bytes.split_at(LOW_ROOM - index);
        self.lay_low(index, front);
        self.lay_high(LOW_ROOM, back);
    }

    /// Lays bytes over those of the lower part from an index on.
    #[tactic(auto, using(crate::proofs::Spreading::laid_low))]
    fn lay_low(&mut self, index: usize, bytes: &[u8])
        requires { index + length bytes.now ≤ low_room }
        ensures { self.new ≡ laid_at index bytes.now self.old }
    {
        reach(&mut self.low, index + bytes.len());
        lay_over(&mut self.low, index, bytes);
    }

    /// Lays bytes over those of the upper part from an index on.
    #[tactic(auto, using(crate::proofs::Spreading::laid_high))]
    fn lay_high(&mut self, index: usize, bytes: &[u8])
        requires above { low_room ≤ index }
        requires fits { index + length bytes.now ≤ memory_size }
        ensures { self.new ≡ laid_at index bytes.now self.old }
    {
        lay_over(&mut self.high, index - LOW_ROOM, bytes);
    }

    /// Zeroes a page, 0 to 4,095.
    #[tactic(auto, using(crate::proofs::Spreading::zeroed_low, crate::proofs::Spreading::zeroed_high))]
    pub(crate) fn zero_page(&mut self, page: usize)
        requires { page < 4096 }
        ensures bytes { self.new ≡ laid_at (page * 4096) (zeros 4096) self.old }
        ensures length { length self.new ≡ memory_size }
    {
        let from = page * PAGE_SIZE;
        if from < LOW_ROOM {
            reach(&mut self.low, from + PAGE_SIZE);
            zero(&mut self.low, from, PAGE_SIZE);
        } else {
            zero(&mut self.high, from - LOW_ROOM, PAGE_SIZE);
        }
        self.tell_length();
    }

    /// The bytes of a piece, 0 to 65,535.
    #[tactic(auto, using(crate::proofs::Spreading::low_piece, crate::proofs::Spreading::gap_piece, crate::proofs::Spreading::high_piece))]
    pub(crate) fn piece(&self, number: usize) -> &[u8]
        requires { number < 65536 }
        ensures bytes { (offset : ℕ) → offset < piece_size →
            slice_index result.now offset ≡ slice_index self.now (number * piece_size + offset) }
        ensures length { length result.now ≡ piece_size }
    {
        let from = number * PIECE_SIZE;
        let end = (number + 1) * PIECE_SIZE;
        if end <= self.low.len() {
            &self.low[from..end]
        } else if end <= LOW_ROOM {
            &NO_PIECE
        } else {
            &self.high[from - LOW_ROOM..end - LOW_ROOM]
        }
    }
}
