#![tactic(auto, unfolding(crate::specs::Language::walked))]

ghost use Rattle.std.specs.Prelude.{◌≡◌, ℕ, ◌<◌, IsTrue};
ghost use Rattle.flow_base.specs.Points.{is_slot, width_of};
ghost use Rattle.rv32im_machine.specs.Language.{Walk, Passed, computed};
ghost use Rattle.rv32im_machine.specs.Private.Passings.{address_of, copy_of};
ghost use Rattle.rv32im_machine.specs.Playing.{Goes, FitsAim, IsAim};

use crate::language::{Aim, Operation, Passing, Place, Shape, Source, Sources, Work};
use crate::machines::Machine;
use crate::passing::Passer;
use flow_base::Slot;
use rv32im_decode::OpKind;

/// What an operation computes from two words.
#[inline(always)]
pub(crate) fn compute(operation: Operation, first: u32, second: u32) -> u32
    ensures { result ≡ computed operation first second }
{
    match operation {
        Operation::Result(kind) => kind.result(first, second),
        Operation::Decision(kind) => u32::from(kind.is_taken(first, second)),
        Operation::Target => jump_target(first, second),
    }
}

/// The sum of two words with bit 0 cleared.
fn jump_target(first: u32, second: u32) -> u32
    ensures { result ≡ computed Operation.Target first second }
{
    let sum = first.wrapping_add(second);
    sum - sum % 2
}

/// The sum that is an address.
pub(crate) const SUM: Operation = Operation::Result(OpKind::Add);

/// The sources of an operation on the first operand and an immediate.
pub(crate) fn offset_sources(immediate: u32) -> Sources
    ensures { result ≡ Sources.Two (Source.At Place.First) (Source.Constant immediate) }
{
    Sources::Two(Source::At(Place::First), Source::Constant(immediate))
}

/// The sources of an operation on both operands.
pub(crate) fn operand_sources() -> Sources
    ensures { result ≡ Sources.Two (Source.At Place.First) (Source.At Place.Second) }
{
    Sources::Two(Source::At(Place::First), Source::At(Place::Second))
}

/// The value of a register passes a slot and goes on.
#[inline(always)]
pub(crate) fn operand<P: Passer>(
    machine: &Machine,
    passer: &mut P,
    slot: Slot,
    aim: Aim,
    register: u8,
) -> Result<u32, P::Stop>
    requires slot { IsTrue (is_slot slot) }
    requires width { width_of slot ≡ 4294967295 }
    requires aim { IsAim (P.memory passer.old) aim }
    requires fits { FitsAim aim slot }
    requires register { register < 32 }
    ensures memory { P.memory passer.new ≡ P.memory passer.old }
    ensures goes { (go : ℕ → Walk) → Goes result (λ other. P.Plays passer.new (go other))
        (P.Plays passer.old (Passed (copy_of machine.now slot aim register) go)) }
{
    passer.pass(Passing {
        point: machine.point(slot),
        aim,
        work: Work::Shaped(Shape::Copied),
        sources: Sources::One(Source::At(Place::Register(register))),
        value: machine.register(register),
    })
}

/// What is computed from the first operand and the immediate passes as an address.
#[inline(always)]
pub(crate) fn decided_address<P: Passer>(
    machine: &Machine,
    passer: &mut P,
    operation: Operation,
    first: u32,
    immediate: u32,
) -> Result<u32, P::Stop>
    ensures memory { P.memory passer.new ≡ P.memory passer.old }
    ensures goes { (go : ℕ → Walk) → Goes result (λ other. P.Plays passer.new (go other))
        (P.Plays passer.old (Passed (address_of machine.now operation first immediate) go)) }
{
    passer.pass(Passing {
        point: machine.point(Slot::Address),
        aim: Aim::Decide,
        work: Work::Computed(operation, first, immediate),
        sources: offset_sources(immediate),
        value: compute(operation, first, immediate),
    })
}
