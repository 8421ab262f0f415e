//! A mask rule: a function that is stored beside the fact of what it answers.

ghost use Rattle.std.specs.Prelude.{◌≡◌, ℕ};
ghost use Rattle.transfer_rules.specs.Soundness.{AreWords, IsSound};
ghost use Rattle.transfer_rules.specs.Tables.{IsByTable};
ghost use Rattle.transfer_rules.specs.declared.operands.Operands.{Operands as Given};

use crate::classes::Class;
use crate::operands::Operands;

/// The rule of a class: a function that is known by the fact of what it answers. Whatever the table is, each answer is
/// sound for the class. Of tables 1, 2 and 3 it is the mask of that table too; table 0 says nothing more.
#[derive(Drop)]
pub struct Rule {
    class: Class,
    table: u8,
    function: fn(Operands) -> u32,
    ghost callable: { IsAlwaysCallable function },
    ghost sound: { (o : Given) (mask : ℕ) → AreWords o → post function o mask → IsSound class o mask },
    ghost by_table: { (o : Given) (mask : ℕ) → AreWords o → post function o mask →
        IsByTable table (λ masks. masks class o) mask },
}

impl Rule {
    /// The rule of a class and a table, by a function that may be called with all operands and whose answers are sound
    /// for the class and those of the table. It takes no memory.
    pub fn new(class: Class, table: u8, function: fn(Operands) -> u32) -> Rule
        requires callable { IsAlwaysCallable function }
        requires sound { (o : Given) (mask : ℕ) → AreWords o → post function o mask → IsSound class o mask }
        requires by_table { (o : Given) (mask : ℕ) → AreWords o → post function o mask →
            IsByTable table (λ masks. masks class o) mask }
        ensures class { result.class ≡ class }
        ensures table { result.table ≡ table }
    {
        Rule {
            class,
            table,
            function,
        }
    }

    /// The mask that the rule answers for the operands. It takes no memory.
    pub fn mask(&self, operands: Operands) -> u32
        ensures sound { IsSound self.now.class operands result }
        ensures table { IsByTable self.now.table (λ masks. masks self.now.class operands) result }
    {
        (self.function)(operands)
    }
}
