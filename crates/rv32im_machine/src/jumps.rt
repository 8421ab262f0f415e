#![tactic(auto, unfolding(crate::specs::Language::walked))]

ghost use Rattle.std.specs.Prelude.{◌≡◌, ℕ, ◌<◌};
ghost use Rattle.rv32im_decode.specs.Operations.{word_of};
ghost use Rattle.rv32im_decode.specs.Encoding.{InRange};
ghost use Rattle.rv32im_machine.specs.Language.{walk, Held, Passed, Walk};
ghost use Rattle.rv32im_machine.specs.Private.Passings.{decision_of};
ghost use Rattle.rv32im_machine.specs.Rows.{row_walk, jumps, links, branches};
ghost use Rattle.rv32im_machine.specs.Playing.{Goes, outcome};

use crate::language::{Aim, Operation, Passing, Place, Shape, Source, Work};
use crate::machines::Machine;
use crate::operands::{compute, decided_address, operand, operand_sources};
use crate::passing::Passer;
use crate::stepping::{Fault, Stepped};
use flow_base::Slot;
use rv32im_decode::{BranchKind, Instr};

/// JAL.
pub(crate) fn jump_turn<P: Passer>(
    machine: &mut Machine,
    passer: &mut P,
    rd: u8,
    offset: i32,
) -> Result<(), P::Stop>
    requires { InRange (Instr.Jal rd offset) }
    ensures plays { P.Plays passer.old (row_walk (Instr.Jal rd offset) machine.old)
        (outcome result machine.new (P.tape passer.new)) }
    ensures memory { P.memory passer.new ≡ P.memory passer.old }
    ensures setting { machine.new.setting ≡ machine.old.setting }
{
    let target = machine.pc().wrapping_add_signed(offset);
    link(machine, passer, rd, target)
}

/// JALR.
pub(crate) fn jump_register_turn<P: Passer>(
    machine: &mut Machine,
    passer: &mut P,
    rd: u8,
    rs1: u8,
    imm: i32,
) -> Result<(), P::Stop>
    requires { InRange (Instr.Jalr rd rs1 imm) }
    ensures plays { P.Plays passer.old (row_walk (Instr.Jalr rd rs1 imm) machine.old)
        (outcome result machine.new (P.tape passer.new)) }
    ensures memory { P.memory passer.new ≡ P.memory passer.old }
    ensures setting { machine.new.setting ≡ machine.old.setting }
{
    let first = operand(machine, passer, Slot::First, Aim::Put(Place::First), rs1)?;
    let target = decided_address(
        machine,
        passer,
        Operation::Target,
        first,
        imm.cast_unsigned(),
    )?;
    link(machine, passer, rd, target)
}

/// A branch.
pub(crate) fn branch_turn<P: Passer>(
    machine: &mut Machine,
    passer: &mut P,
    kind: BranchKind,
    rs1: u8,
    rs2: u8,
    offset: i32,
) -> Result<(), P::Stop>
    requires { InRange (Instr.Branch kind rs1 rs2 offset) }
    ensures plays { P.Plays passer.old (row_walk (Instr.Branch kind rs1 rs2 offset) machine.old)
        (outcome result machine.new (P.tape passer.new)) }
    ensures memory { P.memory passer.new ≡ P.memory passer.old }
    ensures setting { machine.new.setting ≡ machine.old.setting }
{
    let first = operand(machine, passer, Slot::First, Aim::Put(Place::First), rs1)?;
    let second = operand(machine, passer, Slot::Second, Aim::Put(Place::Second), rs2)?;
    let taken = decided_branch(machine, passer, kind, first, second)?;
    branch_to(machine, passer, taken, offset)
}

/// Whether a branch is taken passes.
#[inline(always)]
fn decided_branch<P: Passer>(
    machine: &Machine,
    passer: &mut P,
    kind: BranchKind,
    first: u32,
    second: u32,
) -> Result<u32, P::Stop>
    ensures memory { P.memory passer.new ≡ P.memory passer.old }
    ensures goes { (go : ℕ → Walk) → Goes result (λ other. P.Plays passer.new (go other))
        (P.Plays passer.old (Passed (decision_of machine.now kind first second) go)) }
{
    let operation = Operation::Decision(kind);
    passer.pass(Passing {
        point: machine.point(Slot::Decision),
        aim: Aim::Decide,
        work: Work::Computed(operation, first, second),
        sources: operand_sources(),
        value: compute(operation, first, second),
    })
}

/// The rest of a branch, once it is decided: 0 goes on to the next instruction.
fn branch_to<P: Passer>(
    machine: &mut Machine,
    passer: &mut P,
    taken: u32,
    offset: i32,
) -> Result<(), P::Stop>
    ensures plays { (held : Held) →
        P.Plays passer.old
        (walk machine.old (branches taken (word_of offset) machine.old.control) machine.old.store held)
        (outcome result machine.new (P.tape passer.new)) }
    ensures memory { P.memory passer.new ≡ P.memory passer.old }
    ensures setting { machine.new.setting ≡ machine.old.setting }
{
    if taken == 0 {
        machine.onward();
        Ok(())
    } else {
        let target = machine.pc().wrapping_add_signed(offset);
        jump(machine, passer, target)
    }
}

/// A jump to a target, where it is a multiple of 4.
fn jump<P: Passer>(machine: &mut Machine, passer: &mut P, target: u32) -> Result<(), P::Stop>
    ensures plays { (held : Held) →
        P.Plays passer.old (walk machine.old (jumps target machine.old.control) machine.old.store held)
        (outcome result machine.new (P.tape passer.new)) }
    ensures memory { P.memory passer.new ≡ P.memory passer.old }
    ensures setting { machine.new.setting ≡ machine.old.setting }
{
    if target % 4 == 0 {
        machine.set_pc(target);
    } else {
        let pc = machine.pc();
        machine.end(Stepped::Stopped(Fault::FetchUnaligned { pc }));
    }
    Ok(())
}

/// A jump that puts the address of the next instruction into a register.
fn link<P: Passer>(
    machine: &mut Machine,
    passer: &mut P,
    rd: u8,
    target: u32,
) -> Result<(), P::Stop>
    requires { rd < 32 }
    ensures plays { (held : Held) →
        P.Plays passer.old (walk machine.old (links rd target machine.old.control) machine.old.store held)
        (outcome result machine.new (P.tape passer.new)) }
    ensures memory { P.memory passer.new ≡ P.memory passer.old }
    ensures setting { machine.new.setting ≡ machine.old.setting }
{
    if target % 4 != 0 {
        let pc = machine.pc();
        machine.end(Stepped::Stopped(Fault::FetchUnaligned { pc }));
        return Ok(());
    }
    let next = machine.pc().wrapping_add(4);
    passer.move_to(
        Place::Register(rd),
        Shape::Copied,
        Source::Constant(next),
        next,
    )?;
    machine.set_register(rd, next);
    machine.set_pc(target);
    Ok(())
}
