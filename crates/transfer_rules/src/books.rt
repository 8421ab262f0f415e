//! The books of the three tables. Each is a macro, so that a book is made in the function that uses it: a function that
//! hands out a function pointer hides what the pointer may do.

ghost use Rattle.std.specs.Prelude.{◌≡◌};
ghost use Rattle.transfer_rules.specs.Table1.{mask_by_table_1};
ghost use Rattle.transfer_rules.specs.Table2.{mask_by_table_2};
ghost use Rattle.transfer_rules.specs.Table3.{IsNoWider, mask_by_table_3};

use crate::classes::Class;
use crate::operands::Operands;
use crate::{book_1, book_2, book_3};

/// The book of table 1. It takes no memory.
#[macro_export]
macro_rules! book_1 {
    () => {
        $crate::RuleBook::new(
            1,
            [
                $crate::Rule::new($crate::Class::Add, 1, $crate::add_1),
                $crate::Rule::new($crate::Class::Sub, 1, $crate::sub_1),
                $crate::Rule::new($crate::Class::And, 1, $crate::and_1),
                $crate::Rule::new($crate::Class::Or, 1, $crate::or_1),
                $crate::Rule::new($crate::Class::Xor, 1, $crate::xor_1),
                $crate::Rule::new($crate::Class::Sll, 1, $crate::sll_1),
                $crate::Rule::new($crate::Class::Srl, 1, $crate::srl_1),
                $crate::Rule::new($crate::Class::Sra, 1, $crate::sra_1),
                $crate::Rule::new($crate::Class::Slt, 1, $crate::slt_1),
                $crate::Rule::new($crate::Class::Sltu, 1, $crate::sltu_1),
                $crate::Rule::new($crate::Class::Equal, 1, $crate::equal_1),
                $crate::Rule::new($crate::Class::Mul, 1, $crate::mul_1),
                $crate::Rule::new($crate::Class::Mulh, 1, $crate::high_1),
                $crate::Rule::new($crate::Class::Mulhsu, 1, $crate::high_1),
                $crate::Rule::new($crate::Class::Mulhu, 1, $crate::high_1),
                $crate::Rule::new($crate::Class::Div, 1, $crate::div_1),
                $crate::Rule::new($crate::Class::Divu, 1, $crate::div_1),
                $crate::Rule::new($crate::Class::Rem, 1, $crate::div_1),
                $crate::Rule::new($crate::Class::Remu, 1, $crate::div_1),
            ],
        )
    };
}

/// The book of table 2. It takes no memory.
#[macro_export]
macro_rules! book_2 {
    () => {
        $crate::RuleBook::new(
            2,
            [
                $crate::Rule::new($crate::Class::Add, 2, $crate::add_2),
                $crate::Rule::new($crate::Class::Sub, 2, $crate::sub_2),
                $crate::Rule::new($crate::Class::And, 2, $crate::and_1),
                $crate::Rule::new($crate::Class::Or, 2, $crate::or_1),
                $crate::Rule::new($crate::Class::Xor, 2, $crate::xor_1),
                $crate::Rule::new($crate::Class::Sll, 2, $crate::sll_1),
                $crate::Rule::new($crate::Class::Srl, 2, $crate::srl_1),
                $crate::Rule::new($crate::Class::Sra, 2, $crate::sra_1),
                $crate::Rule::new($crate::Class::Slt, 2, $crate::slt_2),
                $crate::Rule::new($crate::Class::Sltu, 2, $crate::sltu_2),
                $crate::Rule::new($crate::Class::Equal, 2, $crate::equal_2),
                $crate::Rule::new($crate::Class::Mul, 2, $crate::mul_2),
                $crate::Rule::new($crate::Class::Mulh, 2, $crate::high_1),
                $crate::Rule::new($crate::Class::Mulhsu, 2, $crate::high_1),
                $crate::Rule::new($crate::Class::Mulhu, 2, $crate::high_1),
                $crate::Rule::new($crate::Class::Div, 2, $crate::div_1),
                $crate::Rule::new($crate::Class::Divu, 2, $crate::div_1),
                $crate::Rule::new($crate::Class::Rem, 2, $crate::div_1),
                $crate::Rule::new($crate::Class::Remu, 2, $crate::div_1),
            ],
        )
    };
}

/// The book of table 3. It takes no memory.
#[macro_export]
macro_rules! book_3 {
    () => {
        $crate::RuleBook::new(
            3,
            [
                $crate::Rule::new($crate::Class::Add, 3, $crate::add_2),
                $crate::Rule::new($crate::Class::Sub, 3, $crate::sub_2),
                $crate::Rule::new($crate::Class::And, 3, $crate::and_1),
                $crate::Rule::new($crate::Class::Or, 3, $crate::or_1),
                $crate::Rule::new($crate::Class::Xor, 3, $crate::xor_1),
                $crate::Rule::new($crate::Class::Sll, 3, $crate::sll_3),
                $crate::Rule::new($crate::Class::Srl, 3, $crate::srl_3),
                $crate::Rule::new($crate::Class::Sra, 3, $crate::sra_3),
                $crate::Rule::new($crate::Class::Slt, 3, $crate::slt_2),
                $crate::Rule::new($crate::Class::Sltu, 3, $crate::sltu_2),
                $crate::Rule::new($crate::Class::Equal, 3, $crate::equal_2),
                $crate::Rule::new($crate::Class::Mul, 3, $crate::mul_3),
                $crate::Rule::new($crate::Class::Mulh, 3, $crate::mulh_3),
                $crate::Rule::new($crate::Class::Mulhsu, 3, $crate::mulhsu_3),
                $crate::Rule::new($crate::Class::Mulhu, 3, $crate::mulhu_3),
                $crate::Rule::new($crate::Class::Div, 3, $crate::div_3),
                $crate::Rule::new($crate::Class::Divu, 3, $crate::divu_3),
                $crate::Rule::new($crate::Class::Rem, 3, $crate::rem_3),
                $crate::Rule::new($crate::Class::Remu, 3, $crate::remu_3),
            ],
        )
    };
}

/// The masks that the books of the three tables answer for the operands of a class, in order. It takes no memory.
pub fn masks_of_all(class: Class, operands: Operands) -> (u32, u32, u32)
    ensures first { result.0 ≡ mask_by_table_1 class operands }
    ensures second { result.1 ≡ mask_by_table_2 class operands }
    ensures third { result.2 ≡ mask_by_table_3 class operands }
{
    let first = book_1!();
    let second = book_2!();
    let third = book_3!();
    (
        first.mask(class, operands),
        second.mask(class, operands),
        third.mask(class, operands),
    )
}

/// The bits that the mask of table 3 has and that of table 2 has not: none, for any class and operands. It takes no
/// memory.
#[tactic(auto, using(crate::proofs::NoWider::nowhere_wider))]
pub fn bits_beyond_table_2(class: Class, operands: Operands) -> u32
    ensures law { IsNoWider class operands }
    ensures none { result ≡ 0 }
{
    let masks = masks_of_all(class, operands);
    masks.2 & !masks.1
}
