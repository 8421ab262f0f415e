ghost use Rattle.std.specs.Prelude.{◌≡◌};
ghost use Rattle.run_labels.specs.Answers.{HoldsOfAnswer, IsSoundAnswer, IsTableAnswer};
ghost use Rattle.tracked_run.specs.Labels.{masks_in_order};

use crate::source_masks::SourceMasks;
use rv32im_machine::{Operation, Work};
use transfer_rules::{Operands, RuleBook, class_of_branch, class_of_operation, target_mask};

/// The mask that the book's rule answers for an operation.
fn rule_answer(book: &RuleBook, operation: Operation, operands: Operands) -> u32
    ensures sound { IsSoundAnswer operation operands result }
    ensures table { IsTableAnswer book.now.table operation operands result }
{
    match operation {
        Operation::Result(kind) => book.mask(class_of_operation(kind), operands),
        Operation::Decision(kind) => book.mask(class_of_branch(kind), operands),
        Operation::Target => target_mask(book, operands),
    }
}

/// The mask that the book's rule answers for what is computed from sources of these masks; of what moves bits about no
/// rule is asked.
pub fn answer_of(book: &RuleBook, work: Work, masks: SourceMasks) -> u32
    ensures sound { HoldsOfAnswer IsSoundAnswer work (masks_in_order masks) result }
    ensures table { HoldsOfAnswer (IsTableAnswer book.now.table) work (masks_in_order masks) result }
{
    match work {
        Work::Shaped(_) => 0,
        Work::Computed(operation, first, second) => rule_answer(
            book,
            operation,
            Operands {
                v1: first,
                m1: masks.first,
                v2: second,
                m2: masks.second,
            },
        ),
    }
}
