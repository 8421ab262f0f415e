ghost use Rattle.std.specs.Prelude.{◌≡◌, ◌≢◌, IfErr, IfOk, IsTrue, Some, None};
ghost use Rattle.rv32im_machine.specs.declared.stepping.Stepped.TheVariants.{Ran as RanMode};
ghost use Rattle.rv32im_machine.specs.Folds.{real_end};
ghost use Rattle.enclosure_regions.specs.Regions.{ids_of};
ghost use Rattle.region_machine.specs.Enclosures.{kind_of};
ghost use Rattle.region_machine.specs.Guests.{guest_walk};
ghost use Rattle.region_learn.specs.Private.Books.{BookAfter, BookOf, are_bare, have_base, numbers_of};
ghost use Rattle.region_learn.specs.LearnAnswers.{call_in, run_fault};

use crate::faults::LearnFault;
use crate::notes::Notes;
use crate::turns::noted_turn;
use region_machine::MarkedRegions;
use rv32im_machine::{Machine, Stepped};

/// The next turn of a run, with what it writes inside a region noted.
fn next_turn(
    machine: &mut Machine,
    marked: &MarkedRegions,
    book: &mut [Notes],
) -> Result<(), LearnFault>
    requires bare { IsTrue (are_bare marked.now.regions.items) }
    requires numbers { numbers_of book.old ≡ ids_of marked.now.regions.items }
    requires base { IsTrue (have_base book.old machine.old.setting.base) }
    ensures state { IfOk result (λ done. machine.new ≡ real_end (guest_walk marked.now.regions.items machine.old)) }
    ensures setting { machine.new.setting ≡ machine.old.setting }
    ensures noted { IfOk result (λ done.
        BookAfter (kind_of marked.now.regions.items machine.old.control) machine.old book.old book.new) }
    ensures quiet { IfOk result (λ done.
        call_in (kind_of marked.now.regions.items machine.old.control) machine.old ≡ None) }
    ensures fault { IfErr result (λ fault. fault ≢ LearnFault.Memory →
        call_in (kind_of marked.now.regions.items machine.old.control) machine.old ≡ Some fault) }
{
    let turn = marked.next_turn(machine);
    noted_turn(machine, book, turn)
}

/// A run of so many turns at most, with what it writes inside regions noted. It has exited; the error is why it has no
/// least declaration.
pub(crate) fn run(
    machine: &mut Machine,
    marked: &MarkedRegions,
    book: &mut [Notes],
    turns: u32,
) -> Result<(), LearnFault>
    requires bare { IsTrue (are_bare marked.now.regions.items) }
    requires book { BookOf marked.now.regions.items 0 machine.old book.old }
    requires ran { machine.old.control.mode ≡ RanMode }
    ensures fault { IfErr result (λ fault. fault ≢ LearnFault.Memory →
        run_fault (record { regions = marked.now.regions.items; start = machine.old; turns = turns }) ≡ Some fault) }
    ensures exit { IfOk result (λ done.
        run_fault (record { regions = marked.now.regions.items; start = machine.old; turns = turns }) ≡ None) }
    ensures book { IfOk result (λ done. BookOf marked.now.regions.items turns machine.old book.new) }
{
    for _ in 0..turns {
        match next_turn(machine, marked, book) {
            Ok(()) => {}
            Err(fault) => return Err(fault),
        }
        match machine.mode() {
            Stepped::Ran => {}
            Stepped::Exited(_) => return Ok(()),
            Stepped::Stopped(fault) => return Err(LearnFault::Guest(fault)),
        }
    }
    Err(LearnFault::TurnLimit { limit: turns })
}
