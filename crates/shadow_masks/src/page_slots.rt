//! The labels of a page that may not have been made.

ghost use Rattle.std.specs.Prelude.{◌≡◌, ◌+◌, ◌<◌, ◌≤◌, ◌≢◌, ℕ, All, None, OnOk, OnErr, length, true};
ghost use Rattle.shadow_masks.specs.Labels.{clean, IsByteLabel};
ghost use Rattle.shadow_masks.specs.Pieces.{listed_mask, piece_size, LaysMasks};
ghost use Rattle.shadow_masks.specs.Pages.{label_in, labels_from, listed_label, AreClean, SetsFewer, SetsLabel};
ghost use Rattle.shadow_masks.specs.Pages.{SetsPlaces};
ghost use Rattle.shadow_masks.specs.Points.{page_size};

use crate::labels::Label;
use crate::pages::Page;
use flow_base::NoMemory;
use std::alloc::Global;

/// The labels of `count` bytes of a page from a place on, at most 4; past them the clean label.
pub fn labels_in(page: &Option<Page>, place: usize, count: usize) -> [Label; 4]
    requires { place + count ≤ page_size }
    ensures labels { result ≡ labels_from (label_in page.now) place count }
    ensures are_of_bytes { All IsByteLabel result }
{
    match page {
        Some(made) => made.labels(place, count),
        None => [Label::clean(); 4],
    }
}

/// Whether each of `count` bytes of a page from a place on is clean.
pub fn is_clean_in(page: &Option<Page>, place: usize, count: usize) -> bool
    requires { place + count ≤ page_size }
    ensures yes { result ≡ true → AreClean (label_in page.now) place count }
    ensures no { AreClean (label_in page.now) place count → result ≡ true }
{
    match page {
        Some(made) => made.is_clean(place, count),
        None => true,
    }
}

/// The label of a byte in a list of one for each, by its place.
pub fn listed(labels: &[Label], offset: usize) -> Label
    requires offset { offset < length labels.now }
    requires labels { All IsByteLabel labels.now }
    ensures label { result ≡ listed_label labels.now offset }
    ensures is_of_byte { IsByteLabel result }
{
    labels[offset]
}

/// Sets the labels of bytes of a page from a place on; where memory is short only a first part of them is set. Labels
/// that the bytes have take no memory.
pub fn set_all_in(
    page: &mut Option<Page>,
    alloc: Global,
    place: usize,
    labels: &[Label],
) -> Result<(), NoMemory>
    requires place { place + length labels.now ≤ page_size }
    requires labels { All IsByteLabel labels.now }
    ensures ok { OnOk result (
        SetsPlaces place (length labels.now) (listed_label labels.now) (label_in page.old) (label_in page.new)) }
    ensures err { OnErr result (
        SetsFewer place (length labels.now) (listed_label labels.now) (label_in page.old) (label_in page.new)) }
{
    for offset in 0..labels.len() {
        set_in(page, alloc, place + offset, listed(labels, offset))?;
    }
    Ok(())
}

/// Sets the label of a byte of a page, which is made where need be; where memory is short all stays as it was. A label
/// that it has takes no memory.
pub fn set_in(
    page: &mut Option<Page>,
    alloc: Global,
    place: usize,
    label: Label,
) -> Result<(), NoMemory>
    requires place { place < page_size }
    requires label { IsByteLabel label }
    ensures ok { OnOk result (SetsLabel place label (label_in page.old) (label_in page.new)) }
    ensures err { OnErr result (page.new ≡ page.old) }
    ensures other { OnErr result (label_in page.old place ≢ label) }
{
    match page {
        Some(made) => made.set(alloc, place, label),
        None if label.mask == 0 => Ok(()),
        None => {
            *page = Some(Page::new(alloc, place, label)?);
            Ok(())
        }
    }
}

/// The label of a byte in a list of a mask for each, by its place: it is of no point of the program.
pub fn label_of_mask(masks: &[u8], offset: usize) -> Label
    requires { offset < length masks.now }
    ensures label { result ≡ listed_mask masks.now offset }
    ensures is_of_byte { IsByteLabel result }
{
    let mut label = Label::clean();
    label.mask = u32::from(masks[offset]);
    label
}

/// Sets the masks of bytes of a page from a place on, of no point of the program; where memory is short only a first
/// part of them is set.
pub fn set_masks_in(
    page: &mut Option<Page>,
    alloc: Global,
    place: usize,
    masks: &[u8],
) -> Result<(), NoMemory>
    requires { place + length masks.now ≤ page_size }
    ensures ok { OnOk result (
        SetsPlaces place (length masks.now) (listed_mask masks.now) (label_in page.old) (label_in page.new)) }
    ensures err { OnErr result (
        SetsFewer place (length masks.now) (listed_mask masks.now) (label_in page.old) (label_in page.new)) }
{
    for offset in 0..masks.len() {
        set_in(page, alloc, place + offset, label_of_mask(masks, offset))?;
    }
    Ok(())
}

/// Sets the masks of 256 bytes of a page from a place on. The page is made where need be; where memory is short all stays
/// as it was. A page that was made takes no memory.
pub fn lay_masks_in(
    page: &mut Option<Page>,
    alloc: Global,
    place: usize,
    masks: &[u8],
) -> Result<(), NoMemory>
    requires place { place + piece_size ≤ page_size }
    requires length { length masks.now ≡ piece_size }
    ensures ok { OnOk result (LaysMasks place masks.now (label_in page.old) (label_in page.new)) }
    ensures err { OnErr result (page.new ≡ page.old) }
    ensures unmade { OnErr result (page.old ≡ None) }
{
    match page {
        Some(made) => made.lay(place, masks),
        None => {
            let mut made = Page::new(alloc, place, Label::clean())?;
            made.lay(place, masks);
            *page = Some(made);
        }
    }
    Ok(())
}

/// Makes each byte of a page clean. It takes no memory.
pub fn clear_in(page: &mut Option<Page>)
    ensures clean { (place : ℕ) → label_in page.new place ≡ clean }
    ensures none { page.old ≡ None → page.new ≡ None }
{
    if let Some(made) = page {
        made.clear();
    }
}
