//! Several runs that are measured together, and their one cut.

ghost use Rattle.std.specs.Prelude.{◌≡◌, ◌≢◌, ◌∷◌, [], Err, map, IfErr, IfOk};
ghost use Rattle.command_tasks.specs.ReadTasks.{AreBoundedRuns, many_runs_in};
ghost use Rattle.command_tasks.specs.declared.refusals.Refusal.TheVariants.{Memory};
ghost use Rattle.task_answers.specs.Many.{AnswersMany, AreMeasured, IsRunsRefusal};

use crate::books::book_of;
use crate::replies::Reply;
use crate::telling::cut_text;
use command_tasks::{ManyRunsTask, Refusal};
use many_runs::{Many, measure_all};
use std::alloc::Global;
use transfer_rules::RuleBook;

/// What is measured of the runs together, or why they are refused.
fn measured_together(
    alloc: Global,
    runs: &ManyRunsTask,
    books: &[RuleBook],
) -> Result<Many, Refusal>
    requires books { map (λ book. book.table) books.now ≡ 1 ∷ 2 ∷ 3 ∷ [] }
    requires bounded { AreBoundedRuns runs.now }
    ensures ok { IfOk result (λ many. AreMeasured (many_runs_in runs.now) many) }
    ensures err { IfErr result (λ refusal. refusal ≢ Memory → IsRunsRefusal (many_runs_in runs.now) refusal) }
{
    let many = measure_all(
        alloc,
        &runs.guest.image,
        runs.guest.public_input,
        runs.secrets,
        &runs.guest.regions,
        book_of(books, runs.settings.table),
        runs.settings.turns,
    )?;
    Ok(many)
}

/// Measures runs together, and tells their one cut.
pub fn tell_many(
    alloc: Global,
    version: u32,
    runs: &ManyRunsTask,
    books: &[RuleBook],
) -> Result<Reply, Refusal>
    requires books { map (λ book. book.table) books.now ≡ 1 ∷ 2 ∷ 3 ∷ [] }
    requires bounded { AreBoundedRuns runs.now }
    ensures { result ≢ Err Memory → AnswersMany version (many_runs_in runs.now) result }
{
    let many = measured_together(alloc, runs, books)?;
    let text = cut_text(alloc, version, &many.cut)?;
    Ok(Reply::done(text))
}
