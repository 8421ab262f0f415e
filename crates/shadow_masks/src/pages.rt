//! The labels of a page of addresses.

ghost use Rattle.std.specs.Prelude.{◌≡◌, ◌+◌, ◌<◌, ◌≤◌, ◌≢◌, ℕ, All, IfOk, OnOk, OnErr, true};
ghost use Rattle.shadow_masks.specs.Labels.{clean, IsByteLabel};
ghost use Rattle.shadow_masks.specs.Points.{page_size};
ghost use Rattle.std.specs.Prelude.{◌++◌, drop, length, slice_index, take};
ghost use Rattle.shadow_masks.specs.Pieces.{piece_size, LaysMasks};
ghost use Rattle.shadow_masks.specs.Pages.{page_label, label_from, labels_from, AreClean, IsOneLabel, SetsLabel};

use crate::few_points::zeros;
use crate::labels::Label;
use crate::page_points::PagePoints;
use flow_base::NoMemory;
use std::alloc::Global;
use std::marker::Model;

/// The labels of 4,096 bytes: their masks, and apart from these their points.
#[derive(Drop)]
pub struct Page {
    masks: Vec<u8>,
    points: PagePoints,
}

impl Model for Page {
    ghost use Rattle.std.specs.Prelude.{◌≡◌, length};
    ghost use Rattle.shadow_masks.specs.Points.{page_size};
    ghost use Rattle.shadow_masks.specs.Pages.{PageShades};

    ghost Value = { PageShades };

    ghost view = { λ p. record { masks = p.masks.items; points = p.points } };

    ghost invariant = { λ p. length p.masks.items ≡ page_size };
}

/// Lays masks over others from a place on.
fn lay_over(under: &mut Vec<u8>, place: usize, masks: &[u8])
    requires { place + length masks.now ≤ length under.old.items }
    ensures laid { under.new.items ≡ take place under.old.items
        ++ (masks.now ++ drop (place + length masks.now) under.old.items) }
    ensures length { length under.new.items ≡ length under.old.items }
{
    under[place..place + masks.len()].copy_from_slice(masks);
}

impl Page {
    /// The page of one label; all other bytes are clean.
    pub fn new(alloc: Global, place: usize, label: Label) -> Result<Page, NoMemory>
        requires place { place < page_size }
        requires label { IsByteLabel label }
        ensures { IfOk result (λ page. IsOneLabel place label (page_label page)) }
    {
        let mut masks = zeros(alloc, 4096)?;
        masks[place] = label.mask as u8;
        let points = PagePoints::new(alloc, label.point)?;
        Ok(Page { masks, points })
    }

    /// The label of a byte.
    pub fn label(&self, place: usize) -> Label
        requires { place < page_size }
        ensures label { result ≡ page_label self.now place }
        ensures is_of_byte { IsByteLabel result }
    {
        let mask = u32::from(self.masks[place]);
        if mask == 0 {
            return Label::clean();
        }
        Label {
            mask,
            point: self.points.at(place),
        }
    }

    /// The labels of `count` bytes from a place on, at most 4; past them the clean label.
    pub fn labels(&self, place: usize, count: usize) -> [Label; 4]
        requires { place + count ≤ page_size }
        ensures labels { result ≡ labels_from (page_label self.now) place count }
        ensures are_of_bytes { All IsByteLabel result }
    {
        [
            self.label_of(place, 0, count),
            self.label_of(place, 1, count),
            self.label_of(place, 2, count),
            self.label_of(place, 3, count),
        ]
    }

    fn label_of(&self, place: usize, offset: usize, count: usize) -> Label
        requires { place + count ≤ page_size }
        ensures label { result ≡ label_from (page_label self.now) place count offset }
        ensures is_of_byte { IsByteLabel result }
    {
        if offset < count {
            self.label(place + offset)
        } else {
            Label::clean()
        }
    }

    /// Whether each of `count` bytes from a place on is clean.
    pub fn is_clean(&self, place: usize, count: usize) -> bool
        requires { place + count ≤ page_size }
        ensures yes { result ≡ true → AreClean (page_label self.now) place count }
        ensures no { AreClean (page_label self.now) place count → result ≡ true }
    {
        for offset in 0..count {
            if !self.is_clean_at(place + offset) {
                return false;
            }
        }
        true
    }

    fn is_clean_at(&self, place: usize) -> bool
        requires { place < page_size }
        ensures yes { result ≡ true → page_label self.now place ≡ clean }
        ensures no { page_label self.now place ≡ clean → result ≡ true }
    {
        self.masks[place] == 0
    }

    /// Sets the label of a byte; where memory is short all stays as it was. A label that it has takes no memory.
    pub fn set(&mut self, alloc: Global, place: usize, label: Label) -> Result<(), NoMemory>
        requires place { place < page_size }
        requires label { IsByteLabel label }
        ensures ok { OnOk result (SetsLabel place label (page_label self.old) (page_label self.new)) }
        ensures err { OnErr result (self.new ≡ self.old) }
        ensures other { OnErr result (page_label self.old place ≢ label) }
    {
        if label.mask != 0 {
            self.points.set(alloc, place, label.point)?;
        }
        self.masks[place] = label.mask as u8;
        Ok(())
    }

    /// Makes each byte clean. It takes no memory.
    #[tactic(auto, using(crate::proofs::Pieces::zeroed_page))]
    pub fn clear(&mut self)
        ensures { (place : ℕ) → page_label self.new place ≡ clean }
    {
        self.masks.fill(0);
    }

    /// The masks of 256 bytes from a place on.
    #[tactic(auto, using(crate::proofs::Pieces::mask_at))]
    pub fn piece(&self, place: usize) -> &[u8]
        requires { place + piece_size ≤ page_size }
        ensures masks { (offset : ℕ) → offset < piece_size →
            slice_index result.now offset ≡ (page_label self.now (place + offset)).mask }
        ensures length { length result.now ≡ piece_size }
    {
        &self.masks[place..place + 256]
    }

    /// Sets the masks of 256 bytes from a place on. It takes no memory.
    pub fn lay(&mut self, place: usize, masks: &[u8])
        requires place { place + piece_size ≤ page_size }
        requires length { length masks.now ≡ piece_size }
        ensures { LaysMasks place masks.now (page_label self.old) (page_label self.new) }
    {
        lay_over(&mut self.masks, place, masks);
    }
}
