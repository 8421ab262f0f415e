ghost use Rattle.std.specs.Prelude.{◌≡◌, ◌≢◌, ◌∷◌, [], map, IfErr, IfOk};
ghost use Rattle.command_tasks.specs.ReadTasks.{IsBoundedRun, run_in};
ghost use Rattle.command_tasks.specs.declared.refusals.Refusal.TheVariants.{Memory};
ghost use Rattle.task_answers.specs.Runs.{IsMeasured, IsRunRefusal};

use crate::books::book_of;
use command_tasks::{Refusal, RunTask};
use measuring::{Measured, measure};
use std::alloc::Global;
use transfer_rules::RuleBook;

/// What is measured of a run, or why it is refused.
pub fn measured(alloc: Global, run: &RunTask, books: &[RuleBook]) -> Result<Measured, Refusal>
    requires books { map (λ book. book.table) books.now ≡ 1 ∷ 2 ∷ 3 ∷ [] }
    requires bounded { IsBoundedRun run.now }
    ensures ok { IfOk result (λ measured. IsMeasured (run_in run.now) measured) }
    ensures err { IfErr result (λ refusal. refusal ≢ Memory → IsRunRefusal (run_in run.now) refusal) }
{
    let measured = measure(
        alloc,
        &run.guest.image,
        run.guest.public_input,
        run.secret,
        &run.guest.regions,
        book_of(books, run.settings.table),
        run.settings.turns,
    )?;
    Ok(measured)
}
