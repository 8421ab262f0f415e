//! Guest memory and its masks become those of a state, of which most are there already: what is the same is not written.

ghost use Rattle.std.specs.Prelude.{◌≡◌, ◌+◌, ◌*◌, ◌<◌, ◌≤◌, ℕ, IfOk, OnOk, length, take, true};
ghost use Rattle.rv32im_machine.specs.Standing.{with_memory};
ghost use Rattle.kept_states.specs.Keeping.{AreLaid, AreLaidMasks, mask_byte, memory_byte};
ghost use Rattle.kept_states.specs.Laids.{HasBytes, LaidBelow, LieWithin};

use crate::bytes::{PIECE, are_same_pieces, are_zero};
use crate::laids::Laid;
use crate::laying::IN_PAGE;
use crate::pieces::Pieces;
use crate::quiet_pages::{PAGES, next_set, next_touched};
use flow_base::NoMemory;
use rv32im_machine::Machine;
use shadow_masks::Shadow;

/// How many pages that were touched a state may lack. Where there are more, all of memory is better put anew, since
/// each of them is looked at wherever a state is kept or put back.
const MOST_IDLE: usize = 16;

/// The bytes of a piece that is not laid.
const ZEROS: [u8; PIECE] = [0; PIECE];

/// The next page in which a piece is laid, if it is before another page; else this one.
fn next_page(laids: &[Laid], done: usize, from: usize, touched: usize) -> usize
    requires { from ≤ touched }
    ensures from { from ≤ result }
    ensures most { result ≤ touched }
{
    if done < laids.len() {
        let page = laids[done].number as usize / IN_PAGE;
        if from <= page && page < touched {
            return page;
        }
    }
    touched
}

/// A piece of guest memory gets these bytes.
fn put_piece(machine: &mut Machine, number: usize, bytes: &[u8])
    requires number { number < 65536 }
    requires length { length bytes.now ≡ 256 }
    ensures bytes { HasBytes (memory_byte machine.new) number bytes.now }
    ensures before { (index : ℕ) → index < number * 256 → memory_byte machine.new index ≡ memory_byte machine.old index }
    ensures same { machine.new ≡ with_memory machine.new.store.memory machine.old }
{
    if !are_same_pieces(machine.piece(number), bytes) {
        machine.lay_piece(number, bytes);
    }
}

/// The bytes of a piece of guest memory become 0.
fn zero_piece(machine: &mut Machine, number: usize)
    requires number { number < 65536 }
    ensures bytes { (offset : ℕ) → offset < 256 → memory_byte machine.new (number * 256 + offset) ≡ 0 }
    ensures before { (index : ℕ) → index < number * 256 → memory_byte machine.new index ≡ memory_byte machine.old index }
    ensures same { machine.new ≡ with_memory machine.new.store.memory machine.old }
{
    if !are_zero(machine.piece(number)) {
        machine.lay_piece(number, &ZEROS);
    }
}

/// A piece of guest memory gets the bytes that are laid next, if these are its, and else zeros. The answer is how many
/// are then laid.
fn settle_piece(
    machine: &mut Machine,
    pieces: &Pieces,
    laids: &[Laid],
    number: usize,
    done: usize,
) -> usize
    requires number { number < 65536 }
    requires done { done ≤ length laids.now }
    requires within { LieWithin pieces.now laids.now }
    requires below { LaidBelow pieces.now (take done laids.now) number (memory_byte machine.old) }
    ensures done { result ≤ length laids.now }
    ensures below { LaidBelow pieces.now (take result laids.now) (number + 1) (memory_byte machine.new) }
    ensures same { machine.new ≡ with_memory machine.new.store.memory machine.old }
{
    if done < laids.len() && laids[done].number as usize == number {
        put_piece(machine, number, pieces.piece(laids[done].piece));
        return done + 1;
    }
    zero_piece(machine, number);
    done
}

/// The same of the pieces of a page.
fn settle_page(
    machine: &mut Machine,
    pieces: &Pieces,
    laids: &[Laid],
    page: usize,
    done: usize,
) -> usize
    requires page { page < 4096 }
    requires done { done ≤ length laids.now }
    requires within { LieWithin pieces.now laids.now }
    requires below { LaidBelow pieces.now (take done laids.now) (page * 16) (memory_byte machine.old) }
    ensures done { result ≤ length laids.now }
    ensures below { LaidBelow pieces.now (take result laids.now) ((page + 1) * 16) (memory_byte machine.new) }
    ensures same { machine.new ≡ with_memory machine.new.store.memory machine.old }
{
    let mut laid = done;
    for place in 0..IN_PAGE {
        laid = settle_piece(machine, pieces, laids, page * IN_PAGE + place, laid);
    }
    laid
}

/// One more page in which nothing is laid, if it is one.
fn idle_after(idle: usize, is_idle: bool) -> usize {
    if is_idle {
        return idle.saturating_add(1);
    }
    idle
}

/// Guest memory gets the bytes that are laid, whose numbers ascend. Where the answer is no it may be any.
pub(crate) fn settle_memory(machine: &mut Machine, pieces: &Pieces, laids: &[Laid]) -> bool
    requires { LieWithin pieces.now laids.now }
    ensures memory { result ≡ true → AreLaid pieces.now laids.now machine.new.store.memory }
    ensures same { machine.new ≡ with_memory machine.new.store.memory machine.old }
{
    let mut done = 0;
    let mut idle = 0;
    let mut page = next_page(laids, 0, 0, next_touched(machine, 0));
    while page < PAGES {
        let laid = settle_page(machine, pieces, laids, page, done);
        idle = idle_after(idle, laid == done);
        if idle > MOST_IDLE {
            return false;
        }
        done = laid;
        page = next_page(laids, done, page + 1, next_touched(machine, page + 1));
    }
    machine.tell_memory();
    done == laids.len()
}

/// A piece of masks gets these.
fn put_mask_piece(shadow: &mut Shadow, number: usize, masks: &[u8]) -> Result<(), NoMemory>
    requires number { number < 65536 }
    requires length { length masks.now ≡ 256 }
    ensures masks { OnOk result (HasBytes (mask_byte shadow.new) number masks.now) }
    ensures before { OnOk result (
        (index : ℕ) → index < number * 256 → mask_byte shadow.new index ≡ mask_byte shadow.old index) }
    ensures begins { shadow.new.base ≡ shadow.old.base }
{
    let is_there = match shadow.piece_masks(number) {
        Some(there) => are_same_pieces(there, masks),
        None => false,
    };
    if is_there {
        return Ok(());
    }
    shadow.lay_piece(number, masks)
}

/// Whether the masks of a piece are 0.
fn is_clear(shadow: &Shadow, number: usize) -> bool
    requires { number < 65536 }
    ensures { result ≡ true → (offset : ℕ) → offset < 256 → mask_byte shadow.now (number * 256 + offset) ≡ 0 }
{
    match shadow.piece_masks(number) {
        Some(there) => are_zero(there),
        None => true,
    }
}

/// The masks of a piece become 0.
fn clear_mask_piece(shadow: &mut Shadow, number: usize) -> Result<(), NoMemory>
    requires number { number < 65536 }
    ensures masks { OnOk result ((offset : ℕ) → offset < 256 → mask_byte shadow.new (number * 256 + offset) ≡ 0) }
    ensures before { OnOk result (
        (index : ℕ) → index < number * 256 → mask_byte shadow.new index ≡ mask_byte shadow.old index) }
    ensures begins { shadow.new.base ≡ shadow.old.base }
{
    if is_clear(shadow, number) {
        return Ok(());
    }
    shadow.lay_piece(number, &ZEROS)
}

/// A piece of masks gets those that are laid next, if these are its, and else zeros. The answer is how many are then
/// laid.
fn settle_mask_piece(
    shadow: &mut Shadow,
    pieces: &Pieces,
    laids: &[Laid],
    number: usize,
    done: usize,
) -> Result<usize, NoMemory>
    requires number { number < 65536 }
    requires done { done ≤ length laids.now }
    requires within { LieWithin pieces.now laids.now }
    requires below { LaidBelow pieces.now (take done laids.now) number (mask_byte shadow.old) }
    ensures done { IfOk result (λ laid. laid ≤ length laids.now) }
    ensures below { IfOk result (λ laid.
        LaidBelow pieces.now (take laid laids.now) (number + 1) (mask_byte shadow.new)) }
    ensures begins { shadow.new.base ≡ shadow.old.base }
{
    if done < laids.len() && laids[done].number as usize == number {
        put_mask_piece(shadow, number, pieces.piece(laids[done].piece))?;
        return Ok(done + 1);
    }
    clear_mask_piece(shadow, number)?;
    Ok(done)
}

/// The same of the pieces of a page.
fn settle_mask_page(
    shadow: &mut Shadow,
    pieces: &Pieces,
    laids: &[Laid],
    page: usize,
    done: usize,
) -> Result<usize, NoMemory>
    requires page { page < 4096 }
    requires done { done ≤ length laids.now }
    requires within { LieWithin pieces.now laids.now }
    requires below { LaidBelow pieces.now (take done laids.now) (page * 16) (mask_byte shadow.old) }
    ensures done { IfOk result (λ laid. laid ≤ length laids.now) }
    ensures below { IfOk result (λ laid.
        LaidBelow pieces.now (take laid laids.now) ((page + 1) * 16) (mask_byte shadow.new)) }
    ensures begins { shadow.new.base ≡ shadow.old.base }
{
    let mut laid = done;
    for place in 0..IN_PAGE {
        laid = settle_mask_piece(shadow, pieces, laids, page * IN_PAGE + place, laid)?;
    }
    Ok(laid)
}

/// The bytes of guest memory get the masks that are laid, whose numbers ascend. Where the answer is no these may be any.
pub(crate) fn settle_masks(
    shadow: &mut Shadow,
    pieces: &Pieces,
    laids: &[Laid],
) -> Result<bool, NoMemory>
    requires { LieWithin pieces.now laids.now }
    ensures masks { IfOk result (λ are_laid. are_laid ≡ true → AreLaidMasks pieces.now laids.now shadow.new) }
    ensures begins { shadow.new.base ≡ shadow.old.base }
{
    let mut done = 0;
    let mut page = next_page(laids, 0, 0, next_set(shadow, 0));
    while page < PAGES {
        done = settle_mask_page(shadow, pieces, laids, page, done)?;
        page = next_page(laids, done, page + 1, next_set(shadow, page + 1));
    }
    shadow.tell_outside();
    Ok(done == laids.len())
}
