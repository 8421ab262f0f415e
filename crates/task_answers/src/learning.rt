//! The least declaration of regions that a run needs.

ghost use Rattle.std.specs.Prelude.{◌≢◌, ◌≤◌, Err, IfErr, IfOk, length};
ghost use Rattle.command_tasks.specs.ReadTasks.{IsBoundedRun, guest_in};
ghost use Rattle.command_tasks.specs.declared.refusals.Refusal.TheVariants.{Memory};
ghost use Rattle.task_answers.specs.Learning.{AnswersLearning, IsDeclaration, IsLearnRefusal};

use crate::replies::Reply;
use command_tasks::{Guest, Refusal, RunTask};
use enclosure_regions::Regions;
use flow_base::Bytes;
use region_learn::{learn, write_regions};
use std::alloc::Global;

/// The least declaration of a run of a guest, or why there is none.
fn declaration(alloc: Global, guest: &Guest, secret: &Bytes, turns: u32) -> Result<Regions, Refusal>
    requires short { length secret.now ≤ 65536 }
    ensures ok { IfOk result (λ regions. IsDeclaration (guest_in guest.now) secret.now turns regions.items) }
    ensures err { IfErr result (λ refusal. refusal ≢ Memory →
        IsLearnRefusal (guest_in guest.now) secret.now turns refusal) }
{
    let regions = learn(
        alloc,
        &guest.image,
        guest.public_input,
        secret,
        &guest.regions,
        turns,
    )?;
    Ok(regions)
}

/// Learns the declaration of a run, and tells it as the text of a region file.
pub fn tell_declaration(alloc: Global, run: &RunTask) -> Result<Reply, Refusal>
    requires bounded { IsBoundedRun run.now }
    ensures { result ≢ Err Memory → AnswersLearning (guest_in run.now.guest) run.now.secret.now run.now.settings.turns result }
{
    let regions = declaration(alloc, &run.guest, run.secret, run.settings.turns)?;
    let text = write_regions(alloc, &regions)?;
    Ok(Reply::done(text))
}
