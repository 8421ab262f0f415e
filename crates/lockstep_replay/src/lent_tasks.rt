ghost use Rattle.std.specs.Prelude.{◌<◌};
ghost use Rattle.replay_machine.specs.Visits.{SameAhead};

use cut_file::Cut;
use elf32_loader::Image;
use enclosure_regions::Regions;
use flow_base::Bytes;
use replay_machine::CutTable;

/// What the checks of many secrets have in common, which each of them is lent: a program with its public input and its
/// regions, a cut with its table, and the limits.
#[derive(Drop)]
pub struct LentTask<'c> {
    /// The image of the program.
    pub image: &'c Image,
    /// Its public input.
    pub public: &'c Bytes,
    /// Its regions.
    pub regions: &'c Regions,
    /// The cut, which names the length of the secrets and the regions that are skipped.
    pub cut: &'c Cut,
    /// The table of the cut.
    pub table: &'c CutTable,
    /// The most bits that may cross.
    pub budget: u32,
    /// The most turns of the real run.
    pub turns: u32,
    ghost same: { SameAhead table.now cut.now.points },
    ghost small: { budget < 4294967295 },
}
