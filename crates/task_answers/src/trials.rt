//! A trial of the tool by a number.

ghost use Rattle.std.specs.Prelude.{◌≡◌, ◌≢◌, ◌≤◌, ◌*◌, ◌∷◌, ℕ, Bool, List as Seq, [], Err, IfOk, length, map};
ghost use Rattle.flow_base.specs.declared.outputs.Output.{Output as AnOutput};
ghost use Rattle.lockstep_replay.specs.Judgements.{judgement_of};
ghost use Rattle.lockstep_replay.specs.Verdicts.{Accepts};
ghost use Rattle.trial_guests.specs.Secrets.{secret_of};
ghost use Rattle.command_tasks.specs.ReadTasks.{IsBoundedRun, guest_in, run_in};
ghost use Rattle.command_tasks.specs.declared.refusals.Refusal.TheVariants.{Memory};
ghost use Rattle.task_answers.specs.Runs.{AnswersRun, IsMeasured};
ghost use Rattle.task_answers.specs.Trials.{TellsTrial, crossing_count, guest_of_number, run_of_number};
ghost use Rattle.task_answers.specs.Trials.{trial_head, trial_line, trial_tail};

use crate::judging::judge;
use crate::limits::Limits;
use crate::measured_runs::measured;
use crate::replies::Reply;
use crate::texts::joined;
use command_line::RunSettings;
use command_tasks::{Guest, Refusal, RunTask};
use enclosure_regions::Regions;
use flow_base::{Bytes, List, NoMemory};
use lockstep_replay::Verdict;
use measuring::Measured;
use std::alloc::Global;
use transfer_rules::RuleBook;
use trial_guests::{image, secret};

/// The number of turns within which the guest of a trial exits.
const TURNS: u32 = 1_000_000;

/// The number of bits of a verdict that accepts.
fn crossing_of(verdict: &Verdict) -> u32
    requires { (bits : Seq Bool) × (output : AnOutput) × (judgement_of verdict.now ≡ Accepts bits output) }
    ensures { (bits : Seq Bool) → (output : AnOutput) → judgement_of verdict.now ≡ Accepts bits output
        → result ≡ length bits }
{
    match verdict {
        Verdict::Accepted { bits, .. } => bits.count(),
        Verdict::Rejected(_) => unreachable!(),
    }
}

/// How many bits cross the cut of a measured guest, by the lockstep with that cut and its number of bits, which accepts.
fn crossing(
    alloc: Global,
    number: u32,
    guest: &Guest,
    secret: &Bytes,
    measured: &Measured,
) -> Result<u32, NoMemory>
    requires guest { guest_in guest.now ≡ guest_of_number number }
    requires secret { secret.now ≡ secret_of number }
    requires short { length secret.now ≤ 2000 }
    requires measured { IsMeasured (run_of_number number) measured.now }
    requires bits { measured.now.cut.bits ≡ measured.now.value }
    requires few { measured.now.value ≤ 8 * length secret.now }
    ensures { IfOk result (λ count. count ≡ crossing_count number measured.now) }
{
    let limits = Limits {
        budget: measured.cut.bits,
        turns: TURNS,
    };
    let verdict = judge(alloc, guest, &measured.cut, secret, limits)?;
    Ok(crossing_of(&verdict))
}

/// The first part of the line of a trial.
fn head_of_line(
    alloc: Global,
    number: u32,
    secret: &Bytes,
    measured: &Measured,
) -> Result<Bytes, NoMemory>
    requires secret { secret.now ≡ secret_of number }
    ensures { IfOk result (λ text. text ≡ trial_head number measured.now) }
{
    let length = secret.len();
    let bits = measured.value;
    let points = measured.graph.points.len();
    let text = format!(in alloc; "trial {number} secret {length} bits {bits} points {points} ")?;
    Ok(Bytes::from_vec(text.into_bytes()))
}

/// The rest of the line of a trial.
fn tail_of_line(alloc: Global, measured: &Measured, crossing: u32) -> Result<Bytes, NoMemory>
    ensures { IfOk result (λ text. text ≡ trial_tail measured.now crossing) }
{
    let cut = measured.cut.points.len();
    let turns = measured.turns;
    let output = measured.output.bytes.len();
    let text = format!(in alloc; "cut {cut} turns {turns} crossing {crossing} output {output}\n")?;
    Ok(Bytes::from_vec(text.into_bytes()))
}

/// The line of a trial.
fn line(
    alloc: Global,
    number: u32,
    secret: &Bytes,
    measured: &Measured,
    crossing: u32,
) -> Result<Bytes, NoMemory>
    requires secret { secret.now ≡ secret_of number }
    ensures { IfOk result (λ text. text ≡ trial_line number measured.now crossing) }
{
    let head = head_of_line(alloc, number, secret, measured)?;
    let tail = tail_of_line(alloc, measured, crossing)?;
    let text = joined(alloc, b"", head.as_slice(), tail.as_slice())?;
    Ok(text)
}

/// The line of the trial that a run is.
fn line_of_run(
    alloc: Global,
    number: u32,
    run: &RunTask,
    measured: &Measured,
) -> Result<Bytes, NoMemory>
    requires run { run_in run.now ≡ run_of_number number }
    requires short { length run.now.secret.now ≤ 2000 }
    requires measured { IsMeasured (run_of_number number) measured.now }
    ensures { IfOk result (λ text. text ≡ trial_line number measured.now (crossing_count number measured.now)) }
{
    let crossing = crossing(alloc, number, &run.guest, run.secret, measured)?;
    let text = line(alloc, number, run.secret, measured, crossing)?;
    Ok(text)
}

/// Measures the run of a trial, and judges it.
fn try_run(alloc: Global, number: u32, run: &RunTask, books: &[RuleBook]) -> Result<Reply, Refusal>
    requires books { map (λ book. book.table) books.now ≡ 1 ∷ 2 ∷ 3 ∷ [] }
    requires bounded { IsBoundedRun run.now }
    requires run { run_in run.now ≡ run_of_number number }
    requires short { length run.now.secret.now ≤ 2000 }
    ensures { result ≢ Err Memory → AnswersRun (run_of_number number) (TellsTrial number) result }
{
    let measured = measured(alloc, run, books)?;
    let text = line_of_run(alloc, number, run, &measured)?;
    Ok(Reply::done(text))
}

/// Measures the guest of the number, and judges it by the lockstep with its own cut and number of bits.
pub fn try_number(alloc: Global, number: u32, books: &[RuleBook]) -> Result<Reply, Refusal>
    requires books { map (λ book. book.table) books.now ≡ 1 ∷ 2 ∷ 3 ∷ [] }
    ensures { result ≢ Err Memory → AnswersRun (run_of_number number) (TellsTrial number) result }
{
    let image = image(alloc, number)?;
    let secret = secret(alloc, number)?;
    let none = List::new(alloc);
    let run = RunTask {
        guest: Guest {
            image,
            public_input: &none,
            regions: Regions::none(alloc),
        },
        secret: &secret,
        settings: RunSettings {
            turns: TURNS,
            table: 1,
        },
    };
    try_run(alloc, number, &run, books)
}
