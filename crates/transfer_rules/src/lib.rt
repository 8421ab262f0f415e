//! Which bits of a result are secret: the mask rules of three tables, one for each class of operations of RV32IM, and
//! books of rules that are stored as functions beside the fact of what they answer.
#![tactic(auto)]

mod book;
mod books;
mod classes;
mod operands;
mod ranges;
mod rule;
mod rules;
mod shifts_3;
mod table_1;
mod table_2;
mod table_3;

pub use book::RuleBook;
pub use books::{bits_beyond_table_2, masks_of_all};
pub use classes::{Class, class_of, class_of_branch, class_of_operation};
pub use operands::Operands;
pub use rule::Rule;
pub use rules::{address_mask, mask_of, target_mask};
pub use shifts_3::{sll_3, sra_3, srl_3};
pub use table_1::{
    add_1, and_1, div_1, equal_1, high_1, mul_1, or_1, sll_1, slt_1, sltu_1, sra_1, srl_1, sub_1,
    xor_1,
};
pub use table_2::{add_2, equal_2, mul_2, slt_2, sltu_2, sub_2};
pub use table_3::{div_3, divu_3, mul_3, mulh_3, mulhsu_3, mulhu_3, rem_3, remu_3};
