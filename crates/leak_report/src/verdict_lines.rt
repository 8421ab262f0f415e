ghost use Rattle.std.specs.Prelude.{◌≡◌, IfOk};
ghost use Rattle.lockstep_replay.specs.Judgements.{judgement_of};
ghost use Rattle.lockstep_replay.specs.Verdicts.{Rejects};
ghost use Rattle.leak_report.specs.VerdictLines.{taken_line as taken_line_of, verdict_line as verdict_line_of};

use crossing_bits::Bits;
use flow_base::{Bytes, NoMemory, Output};
use lockstep_replay::{Verdict, Why};
use std::alloc::Global;

/// The line of the secret with a number that is taken, with its crossing bits as hexadecimal digits, after a word for
/// that. Its error is lack of memory.
pub fn taken_line(
    alloc: Global,
    word: &str,
    number: usize,
    bits: &Bits,
    output: &Output,
) -> Result<Bytes, NoMemory>
    ensures { IfOk result (λ text. text ≡ taken_line_of word.now number bits.now.bits output.now) }
{
    let hex = bits.hex_text(alloc)?;
    let count = bits.count();
    let written = output.bytes.len();
    let status = output.status;
    let head = format!(in alloc; "{word} {number} bits {count} crossing ")?;
    let tail = format!(in alloc; " output {written} status {status}\n")?;
    let mut text = head.into_bytes();
    text.extend_from_slice(hex.as_slice())?;
    text.extend_from_slice(tail.as_bytes())?;
    Ok(Bytes::from_vec(text))
}

/// The line of a secret that is rejected.
fn rejected_line(alloc: Global, number: usize, why: Why) -> Result<Bytes, NoMemory>
    ensures { IfOk result (λ text. text ≡ verdict_line_of number (Rejects why)) }
{
    let text = format!(in alloc; "rejected {number} {why}\n")?;
    Ok(Bytes::from_vec(text.into_bytes()))
}

/// The line of the secret with a number, counted from 1: that it is accepted, with its crossing bits as hexadecimal
/// digits, or the first reason why it is rejected. Its error is lack of memory.
pub fn verdict_line(alloc: Global, number: usize, verdict: &Verdict) -> Result<Bytes, NoMemory>
    ensures { IfOk result (λ text. text ≡ verdict_line_of number (judgement_of verdict.now)) }
{
    match verdict {
        Verdict::Accepted { bits, output } => taken_line(alloc, "accepted", number, bits, output),
        Verdict::Rejected(why) => rejected_line(alloc, number, *why),
    }
}
