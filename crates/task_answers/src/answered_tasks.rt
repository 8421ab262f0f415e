//! What a command line and its files ask for is made.

ghost use Rattle.std.specs.Prelude.{◌≡◌, ◌≢◌, ◌∷◌, [], Err, map};
ghost use Rattle.command_tasks.specs.ReadTasks.{IsLimitedTask, task_in};
ghost use Rattle.command_tasks.specs.declared.refusals.Refusal.TheVariants.{Memory};
ghost use Rattle.task_answers.specs.AnsweredTasks.{AnswersTask};

use crate::bounding::bound_all;
use crate::judging::judge_secrets;
use crate::many::tell_many;
use crate::replies::Reply;
use crate::telling::tell_run;
use crate::trials::try_number;
use crate::verdicts::reply_of_verdict;
use command_tasks::{Refusal, Task};
use cut_file::{migrate, write_cut};
use elf32_loader::write_image;
use flow_certificate::verify;
use rv32im_asm::list;
use std::alloc::Global;
use transfer_rules::RuleBook;

/// The answer to what a command asks for: a reply, or why it is refused. `books` has the books of the mask rules of
/// tables 1, 2 and 3, in this order. The refusal is [`Refusal::Run`], [`Refusal::Runs`] or [`Refusal::Learn`] by the first
/// cause that the run or the runs have, or [`Refusal::Memory`] out of memory.
pub fn answer_task(alloc: Global, task: &Task, books: &[RuleBook]) -> Result<Reply, Refusal>
    requires books { map (λ book. book.table) books.now ≡ 1 ∷ 2 ∷ 3 ∷ [] }
    requires bounded { IsLimitedTask task.now }
    ensures { result ≢ Err Memory → AnswersTask (task_in task.now) result }
{
    match task {
        Task::JudgeSecrets(check) => Ok(judge_secrets(alloc, check, books)?),
        Task::BoundAll(all) => Ok(bound_all(alloc, all, books)?),
        Task::TellRun { telling, run } => tell_run(alloc, *telling, run, books),
        Task::MeasureAll { version, runs } => tell_many(alloc, *version, runs, books),
        Task::WriteProgram(image) => Ok(Reply::done(write_image(alloc, image)?)),
        Task::ListProgram(image) => Ok(Reply::done(list(alloc, image)?)),
        Task::VerifyCertificate(certificate) => Ok(reply_of_verdict(alloc, verify(certificate))?),
        Task::MigrateCut(cut) => Ok(Reply::done(write_cut(alloc, &migrate(alloc, cut)?)?)),
        Task::TryNumber(number) => try_number(alloc, *number, books),
    }
}
