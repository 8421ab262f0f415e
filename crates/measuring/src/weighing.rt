ghost use Rattle.std.specs.Prelude.{◌≡◌, ◌≤◌, false, true, length, IfErr, IfOk};
ghost use Rattle.elf32_loader.specs.Images.{image_picture};
ghost use Rattle.enclosure_regions.specs.Regions.{are_regions};
ghost use Rattle.region_machine.specs.Starts.{guest};
ghost use Rattle.run_labels.specs.Runs.{unlabelled};
ghost use Rattle.measuring.specs.Measures.{HasCause, Measures};
ghost use Rattle.measuring.specs.Private.Weighing.{HasRunEvents, IsUnweighed, Weighs};

use crate::cutting::cut_of;
use crate::following::{Exit, RunEnd, follow};
use crate::measured::Measured;
use crate::recordings::Recording;
use elf32_loader::Image;
use enclosure_regions::Regions;
use flow_base::{Bytes, NoMemory};
use max_flow::{Solved, solve};
use run_labels::MeasureFault;
use std::alloc::Global;
use transfer_rules::RuleBook;

/// The measure of a run that has exited, whose graph exceeds no limit.
/// `NoMemory` where there is not enough.
fn weigh(alloc: Global, secret_len: u32, exit: Exit) -> Result<Measured, NoMemory>
    requires short { secret_len ≤ 65536 }
    requires within { exit.recording.collapse.is_full ≡ false }
    requires known { HasRunEvents exit.recording }
    ensures { IfOk result (λ measured. Weighs exit secret_len measured) }
{
    let Exit {
        turns,
        output,
        recording,
    } = exit;
    let Recording { collapse, visits } = recording;
    let graph = collapse.finish(alloc)?;
    let Solved { value, flow, side } = solve(alloc, &graph)?;
    let cut = cut_of(alloc, secret_len, &graph, &side, value, &visits)?;
    Ok(Measured {
        value,
        turns,
        output,
        graph,
        flow,
        side,
        cut,
    })
}

/// The measure of a run that has exited.
/// `GraphLimit` exactly where its graph exceeds a limit; `Memory` where there is not enough.
fn conclude(alloc: Global, secret_len: u32, exit: Exit) -> Result<Measured, MeasureFault>
    requires short { secret_len ≤ 65536 }
    requires known { HasRunEvents exit.recording }
    ensures ok { IfOk result (λ measured. Weighs exit secret_len measured) }
    ensures err { IfErr result (λ fault. IsUnweighed exit.recording.collapse.is_full fault) }
{
    if exit.recording.collapse.is_full {
        return Err(MeasureFault::GraphLimit);
    }
    match weigh(alloc, secret_len, exit) {
        Ok(measured) => Ok(measured),
        Err(_) => Err(MeasureFault::Memory),
    }
}

/// The measure of a run, or why it has none; see [`crate::measure`].
pub(crate) fn measure_run(
    alloc: Global,
    image: &Image,
    public: &Bytes,
    secret: &Bytes,
    regions: &Regions,
    book: &RuleBook,
    turns: u32,
) -> Result<Measured, MeasureFault>
    requires short { length secret.now ≤ 65536 }
    requires few { turns ≤ 20000000 }
    requires regions { are_regions regions.now.items ≡ true }
    ensures ok { IfOk result (λ measured. Measures book.now.table regions.now.items
        (unlabelled (guest (image_picture image.now) public.now secret.now)) (length secret.now) turns measured) }
    ensures err { IfErr result (λ fault. HasCause book.now.table regions.now.items
        (unlabelled (guest (image_picture image.now) public.now secret.now)) turns fault) }
{
    match follow(alloc, image, public, secret, regions, book, turns) {
        Ok(RunEnd::Exited(exit)) => conclude(alloc, secret.len() as u32, exit),
        Ok(RunEnd::Refused(fault)) => Err(fault),
        Err(_) => Err(MeasureFault::Memory),
    }
}
