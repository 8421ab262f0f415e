//! The files that a command wants.

ghost use Rattle.std.specs.Prelude.{◌≡◌, ◌++◌, ◌∷◌, [], map, option_map, IfOk, OnOk};
ghost use Rattle.command_line.specs.Words.{command_of, guest_of};
ghost use Rattle.command_tasks.specs.Guests.{guest_wants, region_wants, secret_wants};
ghost use Rattle.command_tasks.specs.Loading.{want};
ghost use Rattle.command_tasks.specs.Tasks.{wants_of as wants_of_of};
ghost use Rattle.command_tasks.specs.Wants.{want_of};

use crate::kinds::FileKind;
use crate::loads::Want;
use command_line::{CommandWords, GuestWords};
use flow_base::{List, NoMemory};
use std::alloc::Global;

/// The one file of a command.
fn one_want<'a>(alloc: Global, name: &'a str, kind: FileKind) -> Result<List<Want<'a>>, NoMemory>
    ensures { IfOk result (λ wants. map want_of wants ≡ want name.entry.now kind ∷ []) }
{
    let mut wants = List::new(alloc);
    wants.push(Want { name, kind })?;
    Ok(wants)
}

/// Appends the region file, where one is named.
fn push_regions<'a>(wants: &mut List<Want<'a>>, regions: Option<&'a str>) -> Result<(), NoMemory>
    ensures { OnOk result (map want_of wants.new ≡ map want_of wants.old
        ++ region_wants (option_map (λ word. word.now) regions.entry)) }
{
    let Some(name) = regions else {
        return Ok(());
    };
    wants.push(Want {
        name,
        kind: FileKind::Regions,
    })?;
    Ok(())
}

/// Appends each secret.
fn push_secrets<'a>(wants: &mut List<Want<'a>>, secrets: &[&'a str]) -> Result<(), NoMemory>
    ensures { OnOk result (map want_of wants.new ≡ map want_of wants.old
        ++ secret_wants (map (λ word. word.now) secrets.now)) }
{
    for name in secrets {
        wants.push(Want {
            name: *name,
            kind: FileKind::Secret,
        })?;
    }
    Ok(())
}

/// The files of a guest, some more, and secrets.
fn guest_wants_of<'a>(
    alloc: Global,
    guest: &GuestWords<'a>,
    more: &[Want<'a>],
    secrets: &[&'a str],
) -> Result<List<Want<'a>>, NoMemory>
    ensures { IfOk result (λ wants. map want_of wants ≡ guest_wants (guest_of guest.now) (map want_of more.now)
        (map (λ word. word.now) secrets.now)) }
{
    let mut wants = List::new(alloc);
    wants.push(Want {
        name: guest.program,
        kind: FileKind::Program,
    })?;
    wants.push(Want {
        name: guest.public_input,
        kind: FileKind::PublicInput,
    })?;
    for want in more {
        wants.push(*want)?;
    }
    push_regions(&mut wants, guest.regions)?;
    push_secrets(&mut wants, secrets)?;
    Ok(wants)
}

/// The files that a command wants, in the order of their loads.
pub fn wants_of<'a>(alloc: Global, command: &CommandWords<'a>) -> Result<List<Want<'a>>, NoMemory>
    ensures { IfOk result (λ wants. map want_of wants ≡ wants_of_of (command_of command.now)) }
{
    match command {
        CommandWords::Check(check) => {
            let cut = Want {
                name: check.cut,
                kind: FileKind::Cut,
            };
            guest_wants_of(alloc, &check.guest, &[cut], check.secrets.as_slice())
        }
        CommandWords::Bound(all) => {
            let cut = Want {
                name: all.cut,
                kind: FileKind::Cut,
            };
            guest_wants_of(alloc, &all.guest, &[cut], &[])
        }
        CommandWords::Tell { run, .. } => guest_wants_of(alloc, &run.guest, &[], &[run.secret]),
        CommandWords::MeasureAll { runs, .. } => {
            guest_wants_of(alloc, &runs.guest, &[], runs.secrets.as_slice())
        }
        CommandWords::Assemble { source } => one_want(alloc, *source, FileKind::Source),
        CommandWords::List { program } => one_want(alloc, *program, FileKind::Program),
        CommandWords::Verify { certificate } => {
            one_want(alloc, *certificate, FileKind::Certificate)
        }
        CommandWords::Migrate { cut } => one_want(alloc, *cut, FileKind::Cut),
        CommandWords::Trial { .. } => Ok(List::new(alloc)),
    }
}
