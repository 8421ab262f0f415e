ghost use Rattle.std.specs.Prelude.{◌≤◌, length, IfOk};
ghost use Rattle.elf32_loader.specs.Images.{image_picture};
ghost use Rattle.region_machine.specs.Starts.{guest};
ghost use Rattle.run_labels.specs.Runs.{unlabelled};
ghost use Rattle.measuring.specs.Following.{EndsAs};

use crate::recordings::Recording;
use crate::setups::Setup;
use elf32_loader::Image;
use enclosure_regions::Regions;
use flow_base::{Bytes, NoMemory, Output};
use run_labels::MeasureFault;
use std::alloc::Global;
use tracked_run::{LabelledMemory, Tracked, TrackedTurn};
use transfer_rules::RuleBook;

/// The exit of a run.
#[derive(Drop)]
pub struct Exit {
    /// The number of its turns; the exit is the last.
    pub turns: u32,
    /// What it has written, and its status.
    pub output: Output,
    /// The graph of its events and the visits of its points.
    pub recording: Recording,
}

/// How a run ends that is measured.
#[derive(Drop)]
pub enum RunEnd {
    /// The guest exits.
    Exited(Exit),
    /// It does not exit within the turn limit, or a turn is refused.
    Refused(MeasureFault),
}

/// The end of a measured run, with the graph and the visits of its events.
/// `NoMemory` where there is not enough.
pub fn follow(
    alloc: Global,
    image: &Image,
    public: &Bytes,
    secret: &Bytes,
    regions: &Regions,
    book: &RuleBook,
    turns: u32,
) -> Result<RunEnd, NoMemory>
    requires { length secret.now ≤ 65536 }
    ensures { IfOk result (λ end. EndsAs book.now.table regions.now.items
        (unlabelled (guest (image_picture image.now) public.now secret.now)) turns end) }
{
    let setup = Setup {
        image,
        public,
        regions,
        book,
        turns,
    };
    let memory = LabelledMemory::new(alloc, image.base)?;
    let (end, _memory) = follow_in(memory, alloc, &setup, secret)?;
    Ok(end)
}

/// The same end of the run on a secret in the memory that another run has handed out: nothing of it is left. It hands the
/// memory out again, however the run ends. `NoMemory` where there is not enough; the memory is then freed.
pub fn follow_in(
    memory: LabelledMemory,
    alloc: Global,
    setup: &Setup<'_>,
    secret: &Bytes,
) -> Result<(RunEnd, LabelledMemory), NoMemory>
    requires { length secret.now ≤ 65536 }
    ensures { IfOk result (λ made. EndsAs setup.now.book.now.table setup.now.regions.now.items (unlabelled (guest
        (image_picture setup.now.image.now) setup.now.public.now secret.now)) setup.now.turns made.0) }
{
    let mut recording = Recording::new(alloc)?;
    let mut tracked = Tracked::new_in(
        memory,
        alloc,
        setup.image,
        setup.public,
        secret,
        setup.regions,
        setup.book,
    )?;
    for made in 0..setup.turns {
        match tracked.turn(&mut recording)? {
            TrackedTurn::Ran => {}
            TrackedTurn::Exited(status) => {
                let (bytes, memory) = tracked.into_parts();
                let exit = Exit {
                    turns: made + 1,
                    output: Output { bytes, status },
                    recording,
                };
                return Ok((RunEnd::Exited(exit), memory));
            }
            TrackedTurn::Refused(fault) => {
                let (_output, memory) = tracked.into_parts();
                return Ok((RunEnd::Refused(fault), memory));
            }
        }
    }
    let (_output, memory) = tracked.into_parts();
    let limit = setup.turns;
    Ok((RunEnd::Refused(MeasureFault::TurnLimit { limit }), memory))
}
