//! A check of secrets with one machine: each is followed from a fresh start, with masks.

ghost use Rattle.std.specs.Prelude.{◌≡◌, ◌≤◌, ◌∷◌, [], List as Seq, Ok as Fine, length, IfOk};
ghost use Rattle.cut_file.specs.Pictures.{cut_picture};
ghost use Rattle.lockstep_replay.specs.LentTasks.{limits_in as lent_limits, task_in};
ghost use Rattle.taint_check.specs.Tainted.{Finding, IsUnclear, finding_of};
ghost use Rattle.command_tasks.specs.ReadTasks.{AreShort, guest_in};
ghost use Rattle.task_answers.specs.Private.JudgedLimits.{limits_in};
ghost use Rattle.task_answers.specs.Checks.{judged_by};
ghost use Rattle.task_answers.specs.Finding.{AnswersTaint, AreFindings, IsFinding};
ghost use Rattle.task_answers.specs.Texts.{clean_count, finding_line as finding_line_of, finding_lines};

use crate::lent_tasks::lent_task;
use crate::limits::Limits;
use crate::replies::Reply;
use crate::texts::{counts_line, status_of};
use command_tasks::Guest;
use cut_file::Cut;
use flow_base::{Bytes, NoMemory};
use leak_report::taken_line;
use lockstep_replay::LentTask;
use replay_machine::CutTable;
use std::alloc::Global;
use taint_check::{LabelledMemory, TaintVerdict, TaintWhy, taint_in};
use transfer_rules::RuleBook;

/// What is found of a secret, in the memory of another one, and this for the next one.
fn find_in(
    memory: LabelledMemory,
    alloc: Global,
    task: &LentTask<'_>,
    secret: &Bytes,
    book: &RuleBook,
) -> Result<(TaintVerdict, LabelledMemory), NoMemory>
    requires short { length secret.now ≤ 65536 }
    ensures { IfOk result (λ found. IsFinding book.now.table (task_in task.now) (lent_limits task.now) secret.now
        (finding_of found.0)) }
{
    taint_in(memory, alloc, task, secret, book)
}

/// The line of a secret that is unclear.
fn unclear_line(alloc: Global, number: usize, why: TaintWhy) -> Result<Bytes, NoMemory>
    ensures { IfOk result (λ text. text ≡ finding_line_of number (IsUnclear why)) }
{
    let text = format!(in alloc; "unclear {number} {why}\n")?;
    Ok(Bytes::from_vec(text.into_bytes()))
}

/// The line of the secret with a number.
fn finding_line(alloc: Global, number: usize, verdict: &TaintVerdict) -> Result<Bytes, NoMemory>
    ensures { IfOk result (λ text. text ≡ finding_line_of number (finding_of verdict.now)) }
{
    match verdict {
        TaintVerdict::Clean { bits, output } => taken_line(alloc, "clean", number, bits, output),
        TaintVerdict::Unclear(why) => unclear_line(alloc, number, *why),
    }
}

/// 1 for a secret that is clean, 0 for one that is unclear.
fn clean_by(verdict: &TaintVerdict) -> usize
    ensures count { result ≡ clean_count (finding_of verdict.now ∷ []) }
    ensures one { result ≤ 1 }
{
    match verdict {
        TaintVerdict::Clean { .. } => 1,
        TaintVerdict::Unclear(_) => 0,
    }
}

/// The lines of secrets, and how many of them are clean.
#[derive(Drop)]
struct Lines {
    text: Vec<u8>,
    clean: usize,
}

/// The lines of secrets, each followed from a fresh start, one after another in the same memory.
fn lines_of(
    alloc: Global,
    task: &LentTask<'_>,
    secrets: &[Bytes],
    book: &RuleBook,
) -> Result<Lines, NoMemory>
    requires short { AreShort secrets.now }
    ensures { IfOk result (λ lines. (findings : Seq Finding)
        × AreFindings book.now.table (task_in task.now) (lent_limits task.now) secrets.now findings
        × (lines.text.items ≡ finding_lines 1 findings) × (lines.clean ≡ clean_count findings)) }
{
    let mut text = Vec::new(alloc);
    let mut clean = 0;
    let mut memory = LabelledMemory::new(alloc, task.image.base)?;
    for (place, secret) in secrets.iter().enumerate() {
        let (verdict, used) = find_in(memory, alloc, task, secret, book)?;
        memory = used;
        let line = finding_line(alloc, place + 1, &verdict)?;
        text.extend_from_slice(line.as_slice())?;
        clean += clean_by(&verdict);
    }
    Ok(Lines { text, clean })
}

/// The reply to a check of secrets with one machine, by the mask rules of a book, all by one table of the cut.
pub fn find_secrets(
    alloc: Global,
    guest: &Guest,
    cut: &Cut,
    secrets: &[Bytes],
    limits: Limits,
    book: &RuleBook,
) -> Result<Reply, NoMemory>
    requires short { AreShort secrets.now }
    ensures { IfOk result (λ reply. AnswersTaint book.now.table (judged_by (guest_in guest.now) (cut_picture cut.now))
        (limits_in limits) secrets.now (Fine reply)) }
{
    let table = CutTable::new(alloc, cut)?;
    let task = lent_task(guest, cut, &table, limits);
    let lines = lines_of(alloc, &task, secrets, book)?;
    let counts = counts_line(alloc, "clean", secrets.len(), lines.clean, limits.budget)?;
    let status = status_of(lines.clean, secrets.len());
    let mut text = lines.text;
    text.extend_from_slice(counts.as_slice())?;
    Ok(Reply {
        status,
        text: Bytes::from_vec(text),
    })
}
