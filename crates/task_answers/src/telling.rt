//! What is told of a run.

ghost use Rattle.std.specs.Prelude.{◌≡◌, ◌≢◌, ◌&&◌, ◌∷◌, [], Err, IfOk, map, true};
ghost use Rattle.cut_file.specs.Pictures.{cut_picture};
ghost use Rattle.command_tasks.specs.ReadTasks.{IsBoundedRun, run_in};
ghost use Rattle.command_tasks.specs.declared.refusals.Refusal.TheVariants.{Memory};
ghost use Rattle.flow_certificate.specs.Pictures.{have_counts, have_names};
ghost use Rattle.task_answers.specs.CutTexts.{IsCutText};
ghost use Rattle.task_answers.specs.Runs.{AnswersRun};
ghost use Rattle.task_answers.specs.Tellings.{AnswersTelling, IsCertificateText, IsCutOfRun, IsReport, Tells, solved_of};

use crate::learning::tell_declaration;
use crate::measured_runs::measured;
use crate::replies::Reply;
use command_line::Telling;
use command_tasks::{Refusal, RunTask};
use cut_file::{Cut, fold, write_cut};
use flow_base::{Bytes, NoMemory};
use flow_certificate::{Certificate, write_certificate};
use leak_report::{report_json, report_text};
use max_flow::Solved;
use measuring::Measured;
use std::alloc::Global;
use transfer_rules::RuleBook;

/// The text of a cut that is measured: of its fold where version 2 is wanted.
pub fn cut_text(alloc: Global, version: u32, cut: &Cut) -> Result<Bytes, NoMemory>
    requires { cut.now.version ≡ 1 }
    ensures { IfOk result (λ text. IsCutText version (cut_picture cut.now) text) }
{
    if version == 2 {
        let folded = fold(alloc, cut)?;
        return write_cut(alloc, &folded);
    }
    write_cut(alloc, cut)
}

/// The text of the certificate of a measured run. `NoMemory` where there is not enough.
fn certificate_text(alloc: Global, measured: Measured) -> Result<Bytes, NoMemory>
    requires { (have_counts measured.graph (solved_of measured) && have_names measured.graph (solved_of measured)) ≡ true }
    ensures { IfOk result (λ text. IsCertificateText measured text) }
{
    let solved = Solved {
        value: measured.value,
        flow: measured.flow,
        side: measured.side,
    };
    match Certificate::from_parts(measured.graph, solved) {
        Some(certificate) => write_certificate(alloc, &certificate),
        None => unreachable!(),
    }
}

/// The report of a measured run, as JSON where that is wanted.
fn report(alloc: Global, json: bool, measured: &Measured) -> Result<Bytes, NoMemory>
    ensures { IfOk result (λ text. IsReport json measured.now text) }
{
    if json {
        return report_json(alloc, measured);
    }
    report_text(alloc, measured)
}

/// Measures a run, and tells its cut.
fn tell_cut(
    alloc: Global,
    version: u32,
    run: &RunTask,
    books: &[RuleBook],
) -> Result<Reply, Refusal>
    requires books { map (λ book. book.table) books.now ≡ 1 ∷ 2 ∷ 3 ∷ [] }
    requires bounded { IsBoundedRun run.now }
    ensures { result ≢ Err Memory → AnswersRun (run_in run.now) (Tells (IsCutOfRun version)) result }
{
    let measured = measured(alloc, run, books)?;
    let text = cut_text(alloc, version, &measured.cut)?;
    Ok(Reply::done(text))
}

/// Measures a run, and tells its certificate.
fn tell_certificate(alloc: Global, run: &RunTask, books: &[RuleBook]) -> Result<Reply, Refusal>
    requires books { map (λ book. book.table) books.now ≡ 1 ∷ 2 ∷ 3 ∷ [] }
    requires bounded { IsBoundedRun run.now }
    ensures { result ≢ Err Memory → AnswersRun (run_in run.now) (Tells IsCertificateText) result }
{
    let measured = measured(alloc, run, books)?;
    let text = certificate_text(alloc, measured)?;
    Ok(Reply::done(text))
}

/// Measures a run, and tells its report.
fn tell_report(
    alloc: Global,
    json: bool,
    run: &RunTask,
    books: &[RuleBook],
) -> Result<Reply, Refusal>
    requires books { map (λ book. book.table) books.now ≡ 1 ∷ 2 ∷ 3 ∷ [] }
    requires bounded { IsBoundedRun run.now }
    ensures { result ≢ Err Memory → AnswersRun (run_in run.now) (Tells (IsReport json)) result }
{
    let measured = measured(alloc, run, books)?;
    let text = report(alloc, json, &measured)?;
    Ok(Reply::done(text))
}

/// Tells of a run.
pub fn tell_run(
    alloc: Global,
    telling: Telling,
    run: &RunTask,
    books: &[RuleBook],
) -> Result<Reply, Refusal>
    requires books { map (λ book. book.table) books.now ≡ 1 ∷ 2 ∷ 3 ∷ [] }
    requires bounded { IsBoundedRun run.now }
    ensures { result ≢ Err Memory → AnswersTelling telling (run_in run.now) result }
{
    match telling {
        Telling::CutText(version) => tell_cut(alloc, version, run, books),
        Telling::Certificate => tell_certificate(alloc, run, books),
        Telling::Report(json) => tell_report(alloc, json, run, books),
        Telling::Declaration => tell_declaration(alloc, run),
    }
}
