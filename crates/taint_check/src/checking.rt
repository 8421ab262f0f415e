ghost use Rattle.std.specs.Prelude.{◌≡◌, ℕ, ◌<◌, ◌^◌, [], length, IfOk, List as Seq};
ghost use Rattle.elf32_loader.specs.Images.{image_picture};
ghost use Rattle.cut_file.specs.Pictures.{cut_picture};
ghost use Rattle.lockstep_replay.specs.LentTasks.{limits_in, task_in};
ghost use Rattle.lockstep_replay.specs.Tasks.{Task, Limits, task_of};
ghost use Rattle.taint_check.specs.Laws.{IsAcceptedIfClean};
ghost use Rattle.taint_check.specs.Tainted.{IsClean, IsUnclear, IsVerdict, exit_of, finding_of};
ghost use Rattle.taint_check.specs.Private.Tapes.{tape_of};
ghost use Rattle.taint_check.specs.Private.Turns.{Begins, IsReady};

use crate::beginning::beginning;
use crate::clearing::Clearing;
use crate::turns::make_turn;
use crate::verdicts::TaintVerdict;
use crate::whys::TaintWhy;
use acceptance_law::{tell_cut, tell_inputs};
use cut_file::Cut;
use elf32_loader::Image;
use enclosure_regions::{Regions, copy_regions};
use flow_base::{Bytes, NoMemory, Output};
use lockstep_replay::{LentTask, Tallying};
use region_machine::{MarkedRegions, OUTPUT_LIMIT};
use replay_machine::CutTable;
use rv32im_machine::{Machine, Stepped};
use std::alloc::Global;
use tracked_run::LabelledMemory;
use transfer_rules::RuleBook;

/// The status with which a run has exited, if it has.
fn exit_status(mode: Stepped) -> Option<u8>
    ensures { result ≡ exit_of mode }
{
    match mode {
        Stepped::Ran => None,
        Stepped::Exited(status) => Some(status),
        Stepped::Stopped(_) => None,
    }
}

/// The verdict of a run that has exited with this status, with the memory for the next check.
fn clean(machine: Machine, side: Clearing<'_>, status: u8) -> (TaintVerdict, LabelledMemory)
    ensures { finding_of result.0 ≡ IsClean side.entry.tally.bits.bits
        (record { bytes = machine.control.output; status = status }) }
{
    let Clearing { shadow, tally, .. } = side;
    let Tallying { bits, .. } = tally;
    let (bytes, guest) = machine.into_parts();
    let output = Output { bytes, status };
    let memory = LabelledMemory {
        guest,
        labels: shadow,
    };
    (TaintVerdict::Clean { bits, output }, memory)
}

/// The verdict of a run that is unclear for a reason, with the memory for the next check.
fn unclear(machine: Machine, side: Clearing<'_>, why: TaintWhy) -> (TaintVerdict, LabelledMemory)
    ensures { finding_of result.0 ≡ IsUnclear why }
{
    let Clearing { shadow, .. } = side;
    let (_output, guest) = machine.into_parts();
    let memory = LabelledMemory {
        guest,
        labels: shadow,
    };
    (TaintVerdict::Unclear(why), memory)
}

/// The verdict of so many turns of the run, with the memory for the next check.
/// `NoMemory` where there is not enough.
fn run_turns(
    machine: Machine,
    side: Clearing<'_>,
    marked: &MarkedRegions,
    skip: &[u16],
    turns: u32,
) -> Result<(TaintVerdict, LabelledMemory), NoMemory>
    requires { IsReady marked.now.regions.items machine (tape_of side.book.now.table side.shadow side.tally
        side.look side.left) }
    ensures { IfOk result (λ made. (task : Task) (limits : Limits) (secret : Seq ℕ) →
        Begins task limits secret machine (tape_of side.entry.book.now.table side.entry.shadow side.entry.tally
        side.entry.look side.entry.left) marked.now.regions.items skip.now → turns ≡ limits.turns →
        length secret ≡ task.secret_length →
        IsVerdict side.entry.book.now.table task limits secret (finding_of made.0)) }
{
    let mut machine = machine;
    let mut side = side;
    for _ in 0..turns {
        if let Some(why) = make_turn(&mut machine, &mut side, marked, skip)? {
            return Ok(unclear(machine, side, why));
        }
        if let Some(status) = exit_status(machine.mode()) {
            return Ok(clean(machine, side, status));
        }
    }
    let why = TaintWhy::TurnLimit { limit: turns };
    Ok(unclear(machine, side, why))
}

/// The verdict of a check of one secret in this memory, and the memory for the next check. `NoMemory` where there is not
/// enough.
fn checked(
    memory: LabelledMemory,
    alloc: Global,
    task: &LentTask<'_>,
    secret: &Bytes,
    book: &RuleBook,
) -> Result<(TaintVerdict, LabelledMemory), NoMemory>
    requires { length secret.now < 2 ^ 32 }
    ensures { IfOk result (λ made. IsVerdict book.now.table (task_in task.now) (limits_in task.now) secret.now
        (finding_of made.0)) }
{
    let cut = task.cut;
    let got = secret.len() as u32;
    if got != cut.secret_len {
        let why = TaintWhy::SecretLength {
            cut: cut.secret_len,
            got,
        };
        return Ok((TaintVerdict::Unclear(why), memory));
    }
    let LabelledMemory { guest, labels } = memory;
    let image = task.image;
    let machine = Machine::new_in(guest, alloc, image, task.public, secret, OUTPUT_LIMIT)?;
    let side = beginning(labels, alloc, image.base, task.table, book, task.budget)?;
    let marked = MarkedRegions::new(alloc, copy_regions(alloc, task.regions)?)?;
    run_turns(machine, side, &marked, cut.skip.as_slice(), task.turns)
}

/// Checks one secret of fewer than 2^32 bytes against a cut with one machine, for one program with its regions and one
/// public input, by the mask rules of a book, within a budget of fewer than 4,294,967,295 bits and a limit of turns. It
/// is clean where nothing in its run is decided by a bit that may depend on the secret and has not crossed, and else
/// unclear, for the first reason. A secret of which it is clean is accepted by the check with two machines, with the same
/// bits and the same output, whatever the book. `NoMemory` where there is not enough.
pub fn taint(
    alloc: Global,
    image: &Image,
    public: &Bytes,
    secret: &Bytes,
    regions: &Regions,
    cut: &Cut,
    book: &RuleBook,
    budget: u32,
    turns: u32,
) -> Result<TaintVerdict, NoMemory>
    requires secret { length secret.now < 2 ^ 32 }
    requires budget { budget < 4294967295 }
    ensures verdict { IfOk result (λ verdict. IsVerdict book.now.table
        (task_of (image_picture image.now) public.now regions.now.items (cut_picture cut.now))
        (record { budget = budget; turns = turns }) secret.now (finding_of verdict)) }
    ensures accepted { IfOk result (λ verdict. IsAcceptedIfClean
        (task_of (image_picture image.now) public.now regions.now.items (cut_picture cut.now))
        (record { budget = budget; turns = turns }) secret.now (finding_of verdict)) }
{
    let table = CutTable::new(alloc, cut)?;
    let task = LentTask {
        image,
        public,
        regions,
        cut,
        table: &table,
        budget,
        turns,
    };
    let memory = LabelledMemory::new(alloc, image.base)?;
    let (verdict, _memory) = taint_in(memory, alloc, &task, secret, book)?;
    Ok(verdict)
}

/// The same check of one secret of a task, in the memory that another one has handed out, whatever its guest was: nothing
/// of it is left, so the verdict is that of a fresh start. It takes the time of what that check has written in place of
/// 16 MiB and their masks. It hands the memory out again. `NoMemory` where there is not enough; the memory is then freed.
pub fn taint_in(
    memory: LabelledMemory,
    alloc: Global,
    task: &LentTask<'_>,
    secret: &Bytes,
    book: &RuleBook,
) -> Result<(TaintVerdict, LabelledMemory), NoMemory>
    requires { length secret.now < 2 ^ 32 }
    ensures verdict { IfOk result (λ made. IsVerdict book.now.table (task_in task.now) (limits_in task.now) secret.now
        (finding_of made.0)) }
    ensures accepted { IfOk result (λ made. IsAcceptedIfClean (task_in task.now) (limits_in task.now) secret.now
        (finding_of made.0)) }
{
    tell_inputs(task.image, task.public, secret, task.regions);
    tell_cut(task.cut);
    checked(memory, alloc, task, secret, book)
}
