ghost use Rattle.std.specs.Prelude.{◌≡◌, ℕ, ◌+◌, ◌-◌, ◌*◌, ◌/◌, ◌%◌, ◌<◌, ◌≤◌, ◌==◌, IfOk, [], ◌∷◌, false, if◌then◌else◌, length, replicate, slice_index, slice_set, true, vec_len};
ghost use Rattle.flow_base.specs.Guests.{memory_size};
ghost use Rattle.rv32im_machine.specs.GuestMemory.{AreZeroBelow, AreZeroUntouched};
ghost use Rattle.rv32im_machine.specs.Standing.{piece_size};
ghost use Rattle.rv32im_machine.specs.Start.{zeros, laid_at};

use crate::sparse_bytes::{PAGE_SIZE, PIECE_SIZE, SparseBytes};
use flow_base::NoMemory;
use std::alloc::Global;
use std::marker::Model;

/// The pages of guest memory.
const PAGES: usize = 4096;

/// The pieces of guest memory.
pub const PIECES: usize = 65_536;

/// The 16 MiB of guest memory; contracts see the bytes. It knows which pages were touched since all bytes were 0, and
/// so a run can begin on the memory of another run for the price of the pages that the other has written.
#[derive(Drop)]
pub struct GuestMemory {
    bytes: SparseBytes,
    touched: Vec<bool>,
}

impl Model for GuestMemory {
    ghost use Rattle.std.specs.Prelude.{◌≡◌, ℕ, List, length, vec_len};
    ghost use Rattle.flow_base.specs.Guests.{memory_size};
    ghost use Rattle.rv32im_machine.specs.GuestMemory.{AreZeroUntouched};

    ghost Value = { List ℕ };

    ghost view = { λ m. m.bytes };

    ghost invariant = { λ m. (length m.bytes ≡ memory_size) × (vec_len m.touched ≡ 4096)
        × AreZeroUntouched m.touched.items m.bytes };
}

/// So many pages that are not touched.
fn untouched(alloc: Global, count: usize) -> Result<Vec<bool>, NoMemory>
    ensures { IfOk result (λ touched. vec_len touched ≡ count) }
{
    Ok(vec![in alloc; false; count]?)
}

/// Touches pages from a page on, up to another.
fn touch(touched: &mut Vec<bool>, from: usize, end: usize)
    requires low { from ≤ end }
    requires high { end ≤ vec_len touched.old }
    ensures pages { touched.new.items ≡ laid_at from (replicate (end - from) true) touched.old.items }
    ensures length { vec_len touched.new ≡ vec_len touched.old }
{
    touched[from..end].fill(true);
}

/// Zeroes a page where it is touched, once the pages below it are 0.
#[tactic(auto, using(crate::proofs::Pages::zeroed_untouched, crate::proofs::Pages::zeroed_below, crate::proofs::Pages::passed_below))]
fn zero_page(bytes: &mut SparseBytes, touched: &[bool], page: usize)
    requires page { page < 4096 }
    requires length { length bytes.old ≡ memory_size }
    requires pages { length touched.now ≡ 4096 }
    requires untouched { AreZeroUntouched touched.now bytes.old }
    requires below { AreZeroBelow (page * 4096) bytes.old }
    ensures untouched { AreZeroUntouched touched.now bytes.new }
    ensures below { AreZeroBelow ((page + 1) * 4096) bytes.new }
    ensures length { length bytes.new ≡ length bytes.old }
{
    if touched[page] {
        bytes.zero_page(page);
    }
}

/// Zeroes the pages that are touched.
#[tactic(auto, using(crate::proofs::Pages::all_zeros))]
fn zero_touched(bytes: &mut SparseBytes, touched: &[bool])
    requires length { length bytes.old ≡ memory_size }
    requires pages { length touched.now ≡ 4096 }
    requires untouched { AreZeroUntouched touched.now bytes.old }
    ensures zeros { bytes.new ≡ zeros memory_size }
    ensures length { length bytes.new ≡ length bytes.old }
{
    for page in 0..PAGES {
        zero_page(bytes, touched, page);
    }
}

impl GuestMemory {
    /// Guest memory whose bytes are 0. `NoMemory` where there is not enough; no later call takes memory.
    #[tactic(auto, using(crate::proofs::Pages::zeros_untouched, crate::proofs::Laying::zeros_length))]
    pub fn new(alloc: Global) -> Result<GuestMemory, NoMemory>
        ensures { IfOk result (λ memory. memory ≡ zeros memory_size) }
    {
        let bytes = SparseBytes::new(alloc)?;
        let touched = untouched(alloc, PAGES)?;
        Ok(GuestMemory { bytes, touched })
    }

    /// The byte with this index, counted from the lowest address.
    #[inline(always)]
    pub(crate) fn byte(&self, index: usize) -> u8
        requires { index < memory_size }
        ensures { result ≡ slice_index self.now index }
    {
        self.bytes.byte(index)
    }

    /// The four bytes from an index on.
    #[inline(always)]
    pub(crate) fn four(&self, index: usize) -> [u8; 4]
        requires { index + 4 ≤ memory_size }
        ensures { result ≡ slice_index self.now index ∷ slice_index self.now (index + 1)
            ∷ slice_index self.now (index + 2) ∷ slice_index self.now (index + 3) ∷ [] }
    {
        self.bytes.four(index)
    }

    /// Sets the byte with this index.
    #[inline(always)]
    #[tactic(auto, using(crate::proofs::Pages::set_untouched))]
    pub(crate) fn set(&mut self, index: usize, value: u8)
        requires { index < memory_size }
        ensures { self.new ≡ slice_set self.old index value }
    {
        self.bytes.set(index, value);
        self.touched[index / PAGE_SIZE] = true;
    }

    /// Lays bytes over memory from an index on.
    #[tactic(auto, using(crate::proofs::Pages::laid_untouched))]
    pub(crate) fn lay(&mut self, index: usize, bytes: &[u8])
        requires { index + length bytes.now ≤ memory_size }
        ensures { self.new ≡ laid_at index bytes.now self.old }
    {
        let end = index + bytes.len();
        self.bytes.lay(index, bytes);
        touch(
            &mut self.touched,
            index / PAGE_SIZE,
            end.div_ceil(PAGE_SIZE),
        );
    }

    /// Zeroes every byte, in the time of the pages that are touched.
    #[tactic(auto, using(crate::proofs::Pages::zeros_untouched, crate::proofs::Laying::zeros_length))]
    pub(crate) fn clear(&mut self)
        ensures { self.new ≡ zeros memory_size }
    {
        zero_touched(&mut self.bytes, self.touched.as_slice());
        self.touched.fill(false);
    }

    /// Nothing is done; a caller learns how many bytes there are.
    pub(crate) fn tell_length(&self)
        ensures { length self.now ≡ memory_size }
    {
        self.bytes.tell_length();
    }

    /// Whether a page of 4,096 bytes, 0 to 4,095, was touched since all bytes were 0; the bytes of one that was not are
    /// 0.
    pub(crate) fn is_touched(&self, page: usize) -> bool
        requires { page < 4096 }
        ensures { result ≡ false → (index : ℕ) → index / 4096 ≡ page → slice_index self.now index ≡ 0 }
    {
        self.touched[page]
    }

    /// The bytes of a piece, 0 to 65,535.
    pub(crate) fn piece(&self, number: usize) -> &[u8]
        requires { number < 65536 }
        ensures bytes { (offset : ℕ) → offset < piece_size →
            slice_index result.now offset ≡ slice_index self.now (number * piece_size + offset) }
        ensures length { length result.now ≡ piece_size }
    {
        self.bytes.piece(number)
    }

    /// Sets the bytes of a piece, 0 to 65,535.
    #[tactic(auto, using(crate::proofs::Standings::laid_piece))]
    pub(crate) fn lay_piece(&mut self, number: usize, bytes: &[u8])
        requires piece { number < 65536 }
        requires length { length bytes.now ≡ piece_size }
        ensures laid { self.new ≡ laid_at (number * piece_size) bytes.now self.old }
        ensures bytes { (index : ℕ) → index < memory_size →
            slice_index self.new index ≡ (if index / piece_size == number
            then slice_index bytes.now (index % piece_size) else slice_index self.old index) }
        ensures length { length self.new ≡ memory_size }
    {
        self.tell_length();
        self.lay(number * PIECE_SIZE, bytes);
        self.tell_length();
    }
}
