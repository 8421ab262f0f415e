//! The masks of a shadow, kept and put back in pieces of 256 bytes.

ghost use Rattle.std.specs.Prelude.{◌≡◌, ◌+◌, ◌-◌, ◌*◌, ◌/◌, ◌<◌, ◌≤◌, ℕ, IfSome, IfNone, None, OnOk, OnErr, false, length, slice_index_or};
ghost use Rattle.flow_base.specs.Guests.{memory_size};
ghost use Rattle.shadow_masks.specs.Labels.{clean, IsLabel};
ghost use Rattle.shadow_masks.specs.Pages.{label_in};
ghost use Rattle.shadow_masks.specs.Pieces.{listed_mask, piece_mask, piece_size, AreMasks, SetsMasks};
ghost use Rattle.shadow_masks.specs.Shades.{byte_label, kept_label, page_at, register_label, IsNew, SetsBytes, SetsFirstPart};

use crate::labels::Label;
use crate::page_slots::{clear_in, lay_masks_in, set_masks_in};
use crate::pages::Page;
use crate::shadows::{Shadow, clean_labels};
use flow_base::NoMemory;

/// Makes each byte of each page clean.
fn clear_pages(pages: &mut Vec<Option<Page>>)
    ensures length { length pages.new.items ≡ length pages.old.items }
    ensures clean { (number : ℕ) → (place : ℕ) → label_in (page_at pages.new.items number) place ≡ clean }
    ensures none { (number : ℕ) → page_at pages.old.items number ≡ None → page_at pages.new.items number ≡ None }
{
    for number in 0..pages.len() {
        clear_in(&mut pages[number]);
    }
}

/// Past the 32 labels of registers there is the clean one.
#[tactic(auto, using(crate::proofs::Pieces::none_past))]
fn tell_labels(labels: &[Label; 32])
    ensures { (register : ℕ) → 32 ≤ register → slice_index_or labels.now register clean ≡ clean }
{
    let _ = labels.len();
}

impl Shadow {
    /// The label that was kept of a register, 0 to 31.
    pub fn kept_reg(&self, register: u8) -> Label
        requires { register < 32 }
        ensures label { result ≡ kept_label self.now register }
        ensures is_label { IsLabel result }
        ensures zero { register ≡ 0 → result ≡ clean }
    {
        self.kept[register as usize]
    }

    /// Whether a page of 4,096 bytes, 0 to 4,095, was made; the bytes of one that was not are clean.
    #[tactic(auto, using(crate::proofs::Pieces::clean_unmade))]
    pub fn is_made(&self, page: usize) -> bool
        requires { page < 4096 }
        ensures { result ≡ false → (address : ℕ) → self.now.base ≤ address →
            (address - self.now.base) / 4096 ≡ page → byte_label self.now address ≡ clean }
    {
        self.pages[page].is_some()
    }

    /// Whether a label was set in a page of 4,096 bytes, 0 to 4,095; the bytes of one in which none was are clean. It
    /// looks at a small table alone.
    #[tactic(auto, using(crate::proofs::LaidMasks::clean_unset))]
    pub fn is_set(&self, page: usize) -> bool
        requires { page < 4096 }
        ensures { result ≡ false → (address : ℕ) → self.now.base ≤ address →
            (address - self.now.base) / 4096 ≡ page → byte_label self.now address ≡ clean }
    {
        self.set[page]
    }

    /// Nothing is done; a caller learns that a byte outside guest memory is clean.
    #[tactic(auto, using(crate::proofs::Pieces::clean_below, crate::proofs::Pieces::clean_above))]
    pub fn tell_outside(&self)
        ensures below { (address : ℕ) → address < self.now.base → byte_label self.now address ≡ clean }
        ensures above { (address : ℕ) → self.now.base + memory_size ≤ address → byte_label self.now address ≡ clean }
    {
        let _ = &self.pages;
    }

    /// Nothing is done; a caller learns that past the 32 registers there is no label that is not clean.
    pub fn tell_registers(&self)
        ensures registers { (register : ℕ) → 32 ≤ register → register_label self.now register ≡ clean }
        ensures kept { (register : ℕ) → 32 ≤ register → kept_label self.now register ≡ clean }
    {
        tell_labels(&self.registers);
        tell_labels(&self.kept);
    }

    /// The masks of a piece of guest memory, 0 to 65,535; None where its page was not made, and each of them is 0.
    pub fn piece_masks(&self, number: usize) -> Option<&[u8]>
        requires { number < 65536 }
        ensures masks { IfSome result (λ masks. AreMasks self.now number masks.now) }
        ensures length { IfSome result (λ masks. length masks.now ≡ piece_size) }
        ensures none { IfNone result ((offset : ℕ) → offset < piece_size → piece_mask self.now number offset ≡ 0) }
    {
        match &self.pages[number / 16] {
            Some(page) => Some(page.piece(number % 16 * 256)),
            None => None,
        }
    }

    /// Makes all labels clean, those that are kept too. Pages that were made stay made. It takes no memory.
    pub fn clear(&mut self)
        ensures { IsNew self.old.base self.new }
    {
        let registers = clean_labels();
        let kept = clean_labels();
        clear_pages(&mut self.pages);
        self.registers = registers;
        self.kept = kept;
    }

    /// Sets the masks of a piece of guest memory, 0 to 65,535, of no point of the program; where memory of the host is
    /// short only a first part of them is set. Labels that the bytes have take no memory.
    #[tactic(auto, using(crate::proofs::Pieces::masks_set_on_ok))]
    pub fn set_piece(&mut self, number: usize, masks: &[u8]) -> Result<(), NoMemory>
        requires piece { number < 65536 }
        requires length { length masks.now ≡ piece_size }
        ensures ok { OnOk result (
            SetsBytes (self.old.base + number * piece_size) piece_size (listed_mask masks.now) self.old self.new) }
        ensures masks { OnOk result (SetsMasks number masks.now self.old self.new) }
        ensures err { OnErr result (
            SetsFirstPart (self.old.base + number * piece_size) piece_size (listed_mask masks.now) self.old self.new) }
    {
        self.put_piece(number, masks)
    }

    /// The same, by the labels of the bytes.
    #[tactic(auto, using(crate::proofs::LaidMasks::set_unmade))]
    fn put_piece(&mut self, number: usize, masks: &[u8]) -> Result<(), NoMemory>
        requires piece { number < 65536 }
        requires length { length masks.now ≡ piece_size }
        ensures ok { OnOk result (
            SetsBytes (self.old.base + number * piece_size) piece_size (listed_mask masks.now) self.old self.new) }
        ensures err { OnErr result (
            SetsFirstPart (self.old.base + number * piece_size) piece_size (listed_mask masks.now) self.old self.new) }
    {
        let alloc = self.alloc;
        self.set[number / 16] = true;
        set_masks_in(
            &mut self.pages[number / 16],
            alloc,
            number % 16 * 256,
            masks,
        )
    }

    /// Sets the masks of a piece of guest memory, 0 to 65,535; a byte whose mask is then not 0 may be of any point. Its
    /// error is lack of memory; all masks then stay as they were. A page that was made takes none.
    #[tactic(auto, using(crate::proofs::LaidMasks::set_unmade))]
    pub fn lay_piece(&mut self, number: usize, masks: &[u8]) -> Result<(), NoMemory>
        requires piece { number < 65536 }
        requires length { length masks.now ≡ piece_size }
        ensures masks { OnOk result (SetsMasks number masks.now self.old self.new) }
        ensures registers { self.new.registers ≡ self.old.registers }
        ensures kept { self.new.kept ≡ self.old.kept }
        ensures begins { self.new.base ≡ self.old.base }
        ensures err { OnErr result (self.new ≡ self.old) }
        ensures unmade { OnErr result (page_at self.old.pages (number / 16) ≡ None) }
    {
        let alloc = self.alloc;
        self.set[number / 16] = true;
        lay_masks_in(
            &mut self.pages[number / 16],
            alloc,
            number % 16 * 256,
            masks,
        )
    }
}
