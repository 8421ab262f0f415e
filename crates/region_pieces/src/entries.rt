ghost use Rattle.std.specs.Prelude.{◌≡◌, IsTrue};
ghost use Rattle.enclosure_regions.specs.Regions.{is_region};
ghost use Rattle.region_machine.specs.Within.{are_inside};

use enclosure_regions::Region;
use rv32im_machine::Machine;
use shadow_masks::Shadow;
use transfer_rules::RuleBook;

/// The entry of a region, of which pieces are run: the machine there with the masks of its bits that may differ, and what
/// is asked.
#[derive(Drop)]
pub(crate) struct Entry<'a> {
    pub machine: &'a Machine,
    pub shadow: &'a Shadow,
    pub region: &'a Region,
    pub book: &'a RuleBook,
    /// How many turns may be made, the entry and the leave among them.
    pub turns_left: u32,
    /// The number that a fault names for the turns.
    pub limit: u32,
    ghost one_base: { shadow.now.base ≡ machine.now.setting.base },
    ghost keeps_rules: { IsTrue (is_region region.now) },
    ghost has_ranges: { IsTrue (are_inside region.now.ranges machine.now.store.registers
        machine.now.setting.base) },
}
