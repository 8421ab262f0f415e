ghost use Rattle.std.specs.Prelude.{◌≡◌, IsTrue};
ghost use Rattle.flow_base.specs.Points.{is_slot};
ghost use Rattle.run_labels.specs.Masks.{answered_mask as mask_answered, aimed_mask as mask_aimed};
ghost use Rattle.run_labels.specs.Masks.{work_mask as mask_worked};
ghost use Rattle.tracked_run.specs.Labels.{MayMake, masks_in_order};

use crate::source_masks::{SourceMasks, shaped_mask};
use flow_base::Slot;
use rv32im_machine::{Aim, Operation, Work};

/// The mask of what is computed, by the rule's answer: a decision has one bit, and the lowest bit of JALR's target is
/// cleared.
fn answered_mask(operation: Operation, answer: u32) -> u32
    ensures { result ≡ mask_answered operation answer }
{
    match operation {
        Operation::Result(_) => answer,
        Operation::Decision(_) => answer % 2,
        Operation::Target => answer - answer % 2,
    }
}

/// The mask of what is made of sources of these masks, by the rule's answer.
pub fn work_mask(work: Work, masks: SourceMasks, answer: u32) -> u32
    requires { MayMake work masks }
    ensures { result ≡ mask_worked work (masks_in_order masks) answer }
{
    match work {
        Work::Shaped(shape) => shaped_mask(shape, masks),
        Work::Computed(operation, _, _) => answered_mask(operation, answer),
    }
}

/// The mask of a passing, of what is made for it: an output of a region has every bit of its slot.
pub(crate) fn aimed_mask(aim: Aim, slot: Slot, mask: u32) -> u32
    requires { IsTrue (is_slot slot) }
    ensures { result ≡ mask_aimed aim slot mask }
{
    match aim {
        Aim::Put(_) => mask,
        Aim::Decide => mask,
        Aim::Give(_) => slot.width(),
    }
}
