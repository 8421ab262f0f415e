ghost use Rattle.std.specs.Prelude.{◌≡◌, ◌++◌, ◌==◌, IfOk, if◌then◌else◌};
ghost use Rattle.command_tasks.specs.declared.statuses.Status.TheVariants.{Done, Rejected};
ghost use Rattle.task_answers.specs.Texts.{counts_line as counts_line_of};

use command_tasks::Status;
use flow_base::{Bytes, NoMemory};
use std::alloc::Global;

/// The line of counts, with a word for the secrets that are taken.
pub fn counts_line(
    alloc: Global,
    word: &str,
    checked: usize,
    taken: usize,
    budget: u32,
) -> Result<Bytes, NoMemory>
    ensures { IfOk result (λ text. text ≡ counts_line_of word.now checked taken budget) }
{
    let text = format!(in alloc; "checked {checked} {word} {taken} budget {budget}\n")?;
    Ok(Bytes::from_vec(text.into_bytes()))
}

/// Three texts, one after another.
pub fn joined(alloc: Global, head: &[u8], middle: &[u8], tail: &[u8]) -> Result<Bytes, NoMemory>
    ensures { IfOk result (λ text. text ≡ head.now ++ (middle.now ++ tail.now)) }
{
    let mut text = Vec::new(alloc);
    text.extend_from_slice(head)?;
    text.extend_from_slice(middle)?;
    text.extend_from_slice(tail)?;
    Ok(Bytes::from_vec(text))
}

/// Done where all secrets that are checked are taken.
pub fn status_of(taken: usize, checked: usize) -> Status
    ensures { result ≡ (if taken == checked then Done else Rejected) }
{
    if taken == checked {
        Status::Done
    } else {
        Status::Rejected
    }
}
