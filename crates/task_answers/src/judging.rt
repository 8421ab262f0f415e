//! Secrets that are judged, each from a fresh start.

ghost use Rattle.std.specs.Prelude.{◌≡◌, ◌≢◌, ◌≤◌, Ok as Fine, length, map, IfOk, [], ◌∷◌};
ghost use Rattle.cut_file.specs.Pictures.{cut_picture};
ghost use Rattle.lockstep_replay.specs.Judgements.{judgement_of};
ghost use Rattle.lockstep_replay.specs.LentTasks.{limits_in as lent_limits, task_in};
ghost use Rattle.lockstep_replay.specs.Verdicts.{First};
ghost use Rattle.command_tasks.specs.ReadTasks.{AreShort, IsBoundedCheck, check_in, guest_in};
ghost use Rattle.task_answers.specs.Private.JudgedLimits.{limits_in};
ghost use Rattle.task_answers.specs.Checks.{AnswersCheck, check_reply, judged_by, judgements_of};
ghost use Rattle.task_answers.specs.Texts.{accepted_count, verdict_lines};

use crate::books::book_of;
use crate::finding::find_secrets;
use crate::lent_tasks::lent_task;
use crate::limits::Limits;
use crate::replies::Reply;
use crate::texts::{counts_line, status_of};
use command_line::Judging;
use command_tasks::{CheckTask, Guest};
use cut_file::Cut;
use flow_base::{Bytes, NoMemory};
use leak_report::verdict_line;
use lockstep_replay::{LentTask, Lockstep, Memories, Verdict};
use replay_machine::CutTable;
use std::alloc::Global;
use transfer_rules::RuleBook;

/// The verdict on a secret, in the guest memories of another one, and these for the next one.
fn judge_in(
    memories: Memories,
    alloc: Global,
    task: &LentTask<'_>,
    secret: &Bytes,
) -> Result<(Verdict, Memories), NoMemory>
    requires short { length secret.now ≤ 65536 }
    ensures { IfOk result (λ judged. judgement_of judged.0 ≡ First (task_in task.now) (lent_limits task.now) secret.now) }
{
    let lockstep = Lockstep::new_in(memories, alloc, task, secret)?;
    Ok(lockstep.run_keeping())
}

/// The verdict on a secret, from a fresh start of the guest.
pub fn judge(
    alloc: Global,
    guest: &Guest,
    cut: &Cut,
    secret: &Bytes,
    limits: Limits,
) -> Result<Verdict, NoMemory>
    requires short { length secret.now ≤ 65536 }
    ensures { IfOk result (λ verdict. judgement_of verdict ≡ First (judged_by (guest_in guest.now) (cut_picture cut.now))
        (limits_in limits) secret.now) }
{
    let table = CutTable::new(alloc, cut)?;
    let task = lent_task(guest, cut, &table, limits);
    let memories = Memories::new(alloc)?;
    let (verdict, _memories) = judge_in(memories, alloc, &task, secret)?;
    Ok(verdict)
}

/// 1 for a secret that is accepted, 0 for one that is rejected.
fn accepted_by(verdict: &Verdict) -> usize
    ensures count { result ≡ accepted_count (judgement_of verdict.now ∷ []) }
    ensures one { result ≤ 1 }
{
    match verdict {
        Verdict::Accepted { .. } => 1,
        Verdict::Rejected(_) => 0,
    }
}

/// The lines of secrets, and how many of them are accepted.
#[derive(Drop)]
struct Lines {
    text: Vec<u8>,
    accepted: usize,
}

/// The lines of secrets, each judged from a fresh start, one after another in the same guest memories.
fn lines_of(alloc: Global, task: &LentTask<'_>, secrets: &[Bytes]) -> Result<Lines, NoMemory>
    requires short { AreShort secrets.now }
    ensures text { IfOk result (λ lines. lines.text.items ≡ verdict_lines 1
        (judgements_of (task_in task.now) (lent_limits task.now) secrets.now)) }
    ensures accepted { IfOk result (λ lines. lines.accepted ≡ accepted_count
        (judgements_of (task_in task.now) (lent_limits task.now) secrets.now)) }
{
    let mut text = Vec::new(alloc);
    let mut accepted = 0;
    let mut memories = Memories::new(alloc)?;
    for (place, secret) in secrets.iter().enumerate() {
        let (verdict, used) = judge_in(memories, alloc, task, secret)?;
        memories = used;
        let line = verdict_line(alloc, place + 1, &verdict)?;
        text.extend_from_slice(line.as_slice())?;
        accepted += accepted_by(&verdict);
    }
    Ok(Lines { text, accepted })
}

/// The reply to a check of secrets by a second machine, all by one table of the cut.
#[tactic(auto, using(crate::proofs::Judgements::length_judgements))]
fn replay_secrets(
    alloc: Global,
    guest: &Guest,
    cut: &Cut,
    secrets: &[Bytes],
    limits: Limits,
) -> Result<Reply, NoMemory>
    requires short { AreShort secrets.now }
    ensures { IfOk result (λ reply. reply ≡ check_reply (judgements_of (judged_by (guest_in guest.now) (cut_picture cut.now))
        (limits_in limits) secrets.now) limits.budget) }
{
    let table = CutTable::new(alloc, cut)?;
    let task = lent_task(guest, cut, &table, limits);
    let lines = lines_of(alloc, &task, secrets)?;
    let budget = limits.budget;
    let counts = counts_line(alloc, "accepted", secrets.len(), lines.accepted, budget)?;
    let status = status_of(lines.accepted, secrets.len());
    let mut text = lines.text;
    text.extend_from_slice(counts.as_slice())?;
    Ok(Reply {
        status,
        text: Bytes::from_vec(text),
    })
}

/// The reply to secrets that are to be judged, each from a fresh start.
pub fn judge_secrets(alloc: Global, task: &CheckTask, books: &[RuleBook]) -> Result<Reply, NoMemory>
    requires books { map (λ book. book.table) books.now ≡ 1 ∷ 2 ∷ 3 ∷ [] }
    requires bounded { IsBoundedCheck task.now }
    ensures { IfOk result (λ reply. AnswersCheck (check_in task.now) (Fine reply)) }
{
    let secrets = task.secrets;
    let limits = Limits {
        budget: task.settings.budget,
        turns: task.settings.turns,
    };
    match task.settings.judging {
        Judging::Replay => replay_secrets(alloc, &task.guest, &task.cut, secrets, limits),
        Judging::Masks(table) => {
            let book = book_of(books, table);
            find_secrets(alloc, &task.guest, &task.cut, secrets, limits, book)
        }
    }
}
