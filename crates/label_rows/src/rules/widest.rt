ghost use Rattle.std.specs.Prelude.{◌≡◌};
ghost use Rattle.transfer_rules.specs.Soundness.{IsSound};
ghost use Rattle.transfer_rules.specs.Table1.{all_mask, either};
ghost use Rattle.transfer_rules.specs.declared.classes.Class.{Class as AnyClass};

use transfer_rules::{Operands, high_1};

/// All bits where any bit of the operands is secret, which is sound for every class, and no table.
#[tactic(auto, using(transfer_rules::proofs::Masks::all_is_sound))]
pub fn widest(operands: Operands) -> u32
    ensures mask { result ≡ all_mask (either operands) }
    ensures sound { (class : AnyClass) → IsSound class operands result }
{
    high_1(operands)
}
