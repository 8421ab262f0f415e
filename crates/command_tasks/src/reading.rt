//! What a command line asks for, as it is read of its words and its files.

ghost use Rattle.std.specs.Prelude.{◌≡◌, ◌≢◌, ◌≤◌, ◌∷◌, [], Ok as Fine, length, map, option_map, IfErr, IfOk};
ghost use Rattle.cut_file.specs.Pictures.{cut_picture};
ghost use Rattle.cut_file.specs.Texts.{CutText};
ghost use Rattle.elf32_loader.specs.Images.{image_picture};
ghost use Rattle.elf32_loader.specs.Programs.{IsImage};
ghost use Rattle.rv32im_asm.specs.Assembling.{assembled};
ghost use Rattle.command_line.specs.Words.{command_of, guest_of};
ghost use Rattle.command_tasks.specs.Guests.{AreRegions, IsGuest, IsGuestRefusal, guest_wants};
ghost use Rattle.command_tasks.specs.Loading.{AreWithin, want};
ghost use Rattle.command_tasks.specs.ReadTasks.{IsBoundedCheck, IsBoundedRun, IsLimitedTask, guest_in};
ghost use Rattle.command_tasks.specs.ReadTasks.{AreBoundedRuns, IsBoundedAll};
ghost use Rattle.command_tasks.specs.ReadTasks.{task_in};
ghost use Rattle.command_tasks.specs.Private.LoadedFiles.{files_in};
ghost use Rattle.command_tasks.specs.Refusals.{IsCertificateRefusal, IsCutRefusal, IsProgramRefusal, IsRegionsRefusal};
ghost use Rattle.command_tasks.specs.Refusals.{IsSourceRefusal};
ghost use Rattle.command_tasks.specs.Tasks.{AreCutFiles, AreRunFiles, IsCutFilesRefusal, IsFormRefusal};
ghost use Rattle.command_tasks.specs.Tasks.{IsGuestFilesRefusal, IsTaskOf};
ghost use Rattle.command_tasks.specs.Tasks.{wants_of};
ghost use Rattle.command_tasks.specs.CertificateFiles.{IsCertificate};
ghost use Rattle.command_tasks.specs.declared.kinds.FileKind.TheVariants as kinds;
ghost use Rattle.command_tasks.specs.declared.refusals.Refusal.TheVariants.{Memory};

use crate::guests::{Guest, GuestFiles};
use crate::layouts::{
    files_of_all_secrets, files_of_check, files_of_many_runs, files_of_run, one_file,
};
use crate::refusals::Refusal;
use crate::tasks::{AllSecretsTask, CheckTask, ManyRunsTask, RunTask, Task};
use command_line::{AllSecretsWords, CheckWords, CommandWords, ManyRunsWords, RunWords};
use cut_file::{Cut, read_cut};
use elf32_loader::{Image, load_image};
use enclosure_regions::{Regions, read_regions};
use flow_base::Bytes;
use flow_certificate::{Certificate, read_certificate};
use rv32im_asm::assemble;
use std::alloc::Global;

/// The image of a program file, or its first fault.
fn read_program(alloc: Global, file: &Bytes) -> Result<Image, Refusal>
    requires short { length file.now ≤ 16777216 }
    ensures ok { IfOk result (λ image. IsImage file.now (image_picture image)) }
    ensures err { IfErr result (λ refusal. refusal ≢ Memory → IsProgramRefusal file.now refusal) }
{
    Ok(load_image(alloc, file.as_slice())?)
}

/// The regions of a region file, or its first fault; no regions without a file.
fn read_region_file(alloc: Global, file: Option<&Bytes>) -> Result<Regions, Refusal>
    ensures ok { IfOk result (λ regions. AreRegions (option_map (λ bytes. bytes.now) file.entry) regions.items) }
    ensures err { IfErr result (λ refusal. refusal ≢ Memory →
        IsRegionsRefusal (option_map (λ bytes. bytes.now) file.entry) refusal) }
{
    match file {
        Some(file) => Ok(read_regions(alloc, file.as_slice())?),
        None => Ok(Regions::none(alloc)),
    }
}

/// The cut of a cut file, or its first fault.
fn read_cut_file(alloc: Global, file: &Bytes) -> Result<Cut, Refusal>
    requires short { length file.now ≤ 67108864 }
    ensures ok { IfOk result (λ cut. CutText file.now (cut_picture cut)) }
    ensures err { IfErr result (λ refusal. refusal ≢ Memory → IsCutRefusal file.now refusal) }
{
    Ok(read_cut(alloc, file.as_slice())?)
}

/// The image of a source, or its first fault.
fn read_source(alloc: Global, file: &Bytes) -> Result<Image, Refusal>
    requires short { length file.now ≤ 1048576 }
    ensures ok { IfOk result (λ image. assembled file.now ≡ Fine (image_picture image)) }
    ensures one { IfOk result (λ image. length image.segments ≤ 64) }
    ensures err { IfErr result (λ refusal. refusal ≢ Memory → IsSourceRefusal file.now refusal) }
{
    Ok(assemble(alloc, file.as_slice())?)
}

/// The certificate of a certificate file, or the file's first fault.
fn read_certificate_file(alloc: Global, file: &Bytes) -> Result<Certificate, Refusal>
    requires short { length file.now ≤ 67108864 }
    ensures ok { IfOk result (λ certificate. IsCertificate file.now certificate.graph certificate.solved) }
    ensures err { IfErr result (λ refusal. refusal ≢ Memory → IsCertificateRefusal file.now refusal) }
{
    Ok(read_certificate(alloc, file.as_slice())?)
}

/// A guest, or the first fault of its program file, and then of its region file.
fn read_guest<'a>(alloc: Global, files: GuestFiles<'a>) -> Result<Guest<'a>, Refusal>
    requires short { length files.program.now ≤ 16777216 }
    ensures ok { IfOk result (λ guest. IsGuest (files_in files.entry) (guest_in guest)) }
    ensures err { IfErr result (λ refusal. refusal ≢ Memory → IsGuestRefusal (files_in files.entry) refusal) }
{
    let image = read_program(alloc, files.program)?;
    let regions = read_region_file(alloc, files.regions)?;
    Ok(Guest {
        image,
        public_input: files.public_input,
        regions,
    })
}

/// What a check asks for.
fn read_check<'a>(
    alloc: Global,
    check: &CheckWords,
    files: &'a [Bytes],
) -> Result<CheckTask<'a>, Refusal>
    requires within { AreWithin (guest_wants (guest_of check.now.guest) (want check.now.cut.now kinds.Cut ∷ [])
        (map (λ word. word.now) check.now.secrets)) files.now }
    ensures ok { IfOk result (λ task. AreCutFiles (guest_of check.now.guest) files.entry.now (guest_in task.guest)
        (cut_picture task.cut) task.secrets.now) }
    ensures settings { IfOk result (λ task. task.settings ≡ check.now.settings) }
    ensures bounded { IfOk result (λ task. IsBoundedCheck task) }
    ensures err { IfErr result (λ refusal. refusal ≢ Memory → IsCutFilesRefusal (guest_of check.now.guest) files.entry.now
        refusal) }
{
    let (guest, cut, secrets) = files_of_check(check, files);
    let guest = read_guest(alloc, guest)?;
    let cut = read_cut_file(alloc, cut)?;
    Ok(CheckTask {
        guest,
        cut,
        secrets,
        settings: check.settings,
    })
}

/// What a bound asks for.
fn read_all_secrets<'a>(
    alloc: Global,
    all: &AllSecretsWords,
    files: &'a [Bytes],
) -> Result<AllSecretsTask<'a>, Refusal>
    requires within { AreWithin (guest_wants (guest_of all.now.guest) (want all.now.cut.now kinds.Cut ∷ []) [])
        files.now }
    ensures ok { IfOk result (λ task. AreCutFiles (guest_of all.now.guest) files.entry.now (guest_in task.guest)
        (cut_picture task.cut) []) }
    ensures settings { IfOk result (λ task. task.settings ≡ all.now.settings) }
    ensures bounded { IfOk result (λ task. IsBoundedAll task) }
    ensures err { IfErr result (λ refusal. refusal ≢ Memory → IsCutFilesRefusal (guest_of all.now.guest)
        files.entry.now refusal) }
{
    let (guest, cut) = files_of_all_secrets(all, files);
    let guest = read_guest(alloc, guest)?;
    let cut = read_cut_file(alloc, cut)?;
    Ok(AllSecretsTask {
        guest,
        cut,
        settings: all.settings,
    })
}

/// The run that is to be told of.
fn read_run<'a>(alloc: Global, run: &RunWords, files: &'a [Bytes]) -> Result<RunTask<'a>, Refusal>
    requires within { AreWithin (guest_wants (guest_of run.now.guest) [] (run.now.secret.now ∷ [])) files.now }
    ensures ok { IfOk result (λ task. AreRunFiles (guest_of run.now.guest) files.entry.now (guest_in task.guest)
        (task.secret.now ∷ [])) }
    ensures settings { IfOk result (λ task. task.settings ≡ run.now.settings) }
    ensures bounded { IfOk result (λ task. IsBoundedRun task) }
    ensures err { IfErr result (λ refusal. refusal ≢ Memory → IsGuestFilesRefusal (guest_of run.now.guest) files.entry.now
        refusal) }
{
    let (guest, secret) = files_of_run(run, files);
    let guest = read_guest(alloc, guest)?;
    Ok(RunTask {
        guest,
        secret,
        settings: run.settings,
    })
}

/// The runs that are to be measured together.
fn read_many_runs<'a>(
    alloc: Global,
    runs: &ManyRunsWords,
    files: &'a [Bytes],
) -> Result<ManyRunsTask<'a>, Refusal>
    requires within { AreWithin (guest_wants (guest_of runs.now.guest) [] (map (λ word. word.now) runs.now.secrets))
        files.now }
    ensures ok { IfOk result (λ task. AreRunFiles (guest_of runs.now.guest) files.entry.now (guest_in task.guest)
        task.secrets.now) }
    ensures settings { IfOk result (λ task. task.settings ≡ runs.now.settings) }
    ensures bounded { IfOk result (λ task. AreBoundedRuns task) }
    ensures err { IfErr result (λ refusal. refusal ≢ Memory → IsGuestFilesRefusal (guest_of runs.now.guest) files.entry.now
        refusal) }
{
    let (guest, secrets) = files_of_many_runs(runs, files);
    let guest = read_guest(alloc, guest)?;
    Ok(ManyRunsTask {
        guest,
        secrets,
        settings: runs.settings,
    })
}

/// What a command asks for, once its files are loaded; the error is the first fault of the first file that is malformed.
pub fn read_task<'a>(
    alloc: Global,
    command: &CommandWords,
    files: &'a [Bytes],
) -> Result<Task<'a>, Refusal>
    requires within { AreWithin (wants_of (command_of command.now)) files.now }
    ensures ok { IfOk result (λ task. IsTaskOf (command_of command.now) files.entry.now (task_in task)) }
    ensures bounded { IfOk result (λ task. IsLimitedTask task) }
    ensures err { IfErr result (λ refusal. refusal ≢ Memory → IsFormRefusal (command_of command.now) files.entry.now
        refusal) }
{
    match command {
        CommandWords::Check(check) => Ok(Task::JudgeSecrets(read_check(alloc, check, files)?)),
        CommandWords::Bound(all) => Ok(Task::BoundAll(read_all_secrets(alloc, all, files)?)),
        CommandWords::Tell { telling, run } => Ok(Task::TellRun {
            telling: *telling,
            run: read_run(alloc, run, files)?,
        }),
        CommandWords::MeasureAll { version, runs } => Ok(Task::MeasureAll {
            version: *version,
            runs: read_many_runs(alloc, runs, files)?,
        }),
        CommandWords::Assemble { .. } => {
            Ok(Task::WriteProgram(read_source(alloc, one_file(files))?))
        }
        CommandWords::List { .. } => Ok(Task::ListProgram(read_program(alloc, one_file(files))?)),
        CommandWords::Verify { .. } => Ok(Task::VerifyCertificate(read_certificate_file(
            alloc,
            one_file(files),
        )?)),
        CommandWords::Migrate { .. } => Ok(Task::MigrateCut(read_cut_file(
            alloc,
            one_file(files),
        )?)),
        CommandWords::Trial { number } => Ok(Task::TryNumber(*number)),
    }
}
