//! A book of mask rules, one for each class.

ghost use Rattle.std.specs.Prelude.{◌≡◌, map};
ghost use Rattle.transfer_rules.specs.Soundness.{IsSound};
ghost use Rattle.transfer_rules.specs.Tables.{IsByTable, classes_in_order};

use crate::classes::Class;
use crate::operands::Operands;
use crate::rule::Rule;

/// The rules of the nineteen classes, in the order of the classes, all of one table: 1, 2, 3, or 0 where nothing but their
/// soundness is known.
#[derive(Drop)]
pub struct RuleBook {
    table: u8,
    rules: [Rule; 19],
    ghost in_order: { map (λ rule. rule.class) rules ≡ classes_in_order },
    ghost of_one_table: { map (λ rule. rule.table) rules ≡ map (λ _. table) rules },
}

impl RuleBook {
    /// The book of a table, from the rules of the nineteen classes in order, all of that table. It takes no memory.
    pub fn new(table: u8, rules: [Rule; 19]) -> RuleBook
        requires in_order { map (λ rule. rule.class) rules ≡ classes_in_order }
        requires of_one_table { map (λ rule. rule.table) rules ≡ map (λ _. table) rules }
        ensures { result.table ≡ table }
    {
        RuleBook { table, rules }
    }

    /// The mask that the book's rule of a class answers for the operands. It takes no memory.
    pub fn mask(&self, class: Class, operands: Operands) -> u32
        ensures sound { IsSound class operands result }
        ensures table { IsByTable self.now.table (λ masks. masks class operands) result }
    {
        self.rule(class).mask(operands)
    }

    fn rule(&self, class: Class) -> &Rule
        ensures class { result.now.class ≡ class }
        ensures table { result.now.table ≡ self.now.table }
    {
        &self.rules[class as usize]
    }
}
