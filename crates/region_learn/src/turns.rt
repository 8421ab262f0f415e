ghost use Rattle.std.specs.Prelude.{◌≡◌, ◌≢◌, ◌<◌, ◌==◌, IfErr, IfOk, IsTrue, Some, None, length, slice_index_or, map, ℕ};
ghost use Rattle.std.specs.List.{list_all, list_any};
ghost use Rattle.rv32im_machine.specs.Folds.{real_end};
ghost use Rattle.rv32im_machine.specs.Language.{turn_walk};
ghost use Rattle.rv32im_machine.specs.Rows.{walk_of};
ghost use Rattle.enclosure_regions.specs.Regions.{is_region};
ghost use Rattle.region_machine.specs.Enclosures.{Leaves as LeavesKind, Steps as StepsKind};
ghost use Rattle.region_machine.specs.Guests.{entry, kind_walk, leave};
ghost use Rattle.region_machine.specs.Within.{are_inside, can_leave, has_rules, seen};
ghost use Rattle.region_learn.specs.Private.Books.{BookAfter, are_own, has_kind_notes, has_notes, have_base};
ghost use Rattle.region_learn.specs.LearnAnswers.{call_in};
ghost use Rattle.region_learn.specs.declared.notes.Notes.{Notes as TheNotes};

use crate::faults::LearnFault;
use crate::notes::{Halt, Notes};
use enclosure_regions::Region;
use region_machine::{GuestTurn, enter_by, leave_by};
use rv32im_machine::{Machine, Plain, turn_by};

/// The entry of a region.
fn enter(machine: &mut Machine, region: &Region)
    requires { IsTrue (is_region region.now) }
    ensures state { machine.new ≡ real_end (turn_walk machine.old (entry region.now machine.old.control)) }
    ensures setting { machine.new.setting ≡ machine.old.setting }
{
    match enter_by(machine, &mut Plain, region) {
        Ok(()) => {}
        Err(never) => match never {},
    }
}

/// The leave of a region.
fn leave(machine: &mut Machine, region: &Region)
    requires rules { IsTrue (is_region region.now) }
    requires inside { IsTrue (are_inside region.now.ranges machine.old.store.kept machine.old.setting.base) }
    ensures state { machine.new ≡
        real_end (turn_walk machine.old (leave region.now machine.old.store.kept machine.old.control)) }
    ensures setting { machine.new.setting ≡ machine.old.setting }
{
    match leave_by(machine, &mut Plain, region) {
        Ok(()) => {}
        Err(never) => match never {},
    }
}

/// A step outside of regions.
fn step(machine: &mut Machine)
    ensures state { machine.new ≡ real_end (walk_of machine.old) }
    ensures setting { machine.new.setting ≡ machine.old.setting }
{
    match turn_by(machine, &mut Plain) {
        Ok(()) => {}
        Err(never) => match never {},
    }
}

/// The place of the notes of the region with a number.
fn place_of(book: &[Notes], number: u16) -> usize
    requires { IsTrue (has_notes book.now number) }
    ensures within { result < length book.now }
    ensures found { (none : TheNotes) → (slice_index_or book.now result none).region ≡ number }
{
    let mut place = 0;
    while place < book.len() {
        if book[place].region == number {
            return place;
        }
        place += 1;
    }
    0
}

/// The leave of a region, with the registers that have changed noted.
fn leave_noting(machine: &mut Machine, book: &mut [Notes], region: &Region)
    requires rules { IsTrue (is_region region.now) }
    requires inside { IsTrue (are_inside region.now.ranges machine.old.store.kept machine.old.setting.base) }
    requires own { IsTrue (are_own book.old) }
    requires notes { IsTrue (has_notes book.old region.now.id) }
    ensures state { machine.new ≡
        real_end (turn_walk machine.old (leave region.now machine.old.store.kept machine.old.control)) }
    ensures setting { machine.new.setting ≡ machine.old.setting }
    ensures noted { BookAfter (LeavesKind region.now) machine.old book.old book.new }
{
    let place = place_of(book, region.id);
    book[place].note_leave(machine.kept(), machine.registers());
    leave(machine, region);
}

/// A step inside a region, with what it writes noted. A call is refused, and the machine is then left in the middle of it.
fn step_noting(machine: &mut Machine, book: &mut [Notes], region: &Region) -> Result<(), LearnFault>
    requires own { IsTrue (are_own book.old) }
    requires notes { IsTrue (has_notes book.old region.now.id) }
    requires base { IsTrue (have_base book.old machine.old.setting.base) }
    ensures state { IfOk result (λ done. machine.new ≡ real_end (walk_of machine.old)) }
    ensures setting { machine.new.setting ≡ machine.old.setting }
    ensures noted { IfOk result (λ done. BookAfter (StepsKind (Some region.now)) machine.old book.old book.new) }
    ensures quiet { IfOk result (λ done. call_in (StepsKind (Some region.now)) machine.old ≡ None) }
    ensures fault { IfErr result (λ fault. fault ≢ LearnFault.Memory →
        call_in (StepsKind (Some region.now)) machine.old ≡ Some fault) }
{
    let pc = machine.pc();
    let place = place_of(book, region.id);
    match turn_by(machine, &mut book[place]) {
        Ok(()) => Ok(()),
        Err(Halt::Call) => Err(LearnFault::Call {
            region: region.id,
            pc,
        }),
        Err(Halt::Memory) => Err(LearnFault::Memory),
    }
}

/// A turn of this kind, with what it writes inside a region noted.
pub(crate) fn noted_turn(
    machine: &mut Machine,
    book: &mut [Notes],
    turn: GuestTurn<'_>,
) -> Result<(), LearnFault>
    requires rules { IsTrue (has_rules (seen turn)) }
    requires leave { IsTrue (can_leave (seen turn) machine.old.store.kept machine.old.setting.base) }
    requires own { IsTrue (are_own book.old) }
    requires notes { IsTrue (has_kind_notes book.old (seen turn)) }
    requires base { IsTrue (have_base book.old machine.old.setting.base) }
    ensures state { IfOk result (λ done. machine.new ≡ real_end (kind_walk (seen turn.entry) machine.old)) }
    ensures setting { machine.new.setting ≡ machine.old.setting }
    ensures noted { IfOk result (λ done. BookAfter (seen turn.entry) machine.old book.old book.new) }
    ensures quiet { IfOk result (λ done. call_in (seen turn.entry) machine.old ≡ None) }
    ensures fault { IfErr result (λ fault. fault ≢ LearnFault.Memory →
        call_in (seen turn.entry) machine.old ≡ Some fault) }
{
    match turn {
        GuestTurn::Enters(region) => {
            enter(machine, region);
            Ok(())
        }
        GuestTurn::Leaves(region) => {
            leave_noting(machine, book, region);
            Ok(())
        }
        GuestTurn::Steps(Some(region)) => step_noting(machine, book, region),
        GuestTurn::Steps(None) => {
            step(machine);
            Ok(())
        }
    }
}
