#![tactic(auto, unfolding(crate::specs::Language::walked))]

ghost use Rattle.std.specs.Prelude.{◌≡◌};
ghost use Rattle.rv32im_decode.specs.Encoding.{InRange};
ghost use Rattle.rv32im_machine.specs.Rows.{row_walk};
ghost use Rattle.rv32im_machine.specs.Playing.{outcome};

use crate::language::{Aim, Operation, Passing, Place, Shape, Source, Work};
use crate::machines::Machine;
use crate::operands::{compute, offset_sources, operand, operand_sources};
use crate::passing::Passer;
use flow_base::Slot;
use rv32im_decode::{ImmKind, Instr, OpKind, upper};

/// A register and a register make a result.
pub(crate) fn register_turn<P: Passer>(
    machine: &mut Machine,
    passer: &mut P,
    kind: OpKind,
    rd: u8,
    rs1: u8,
    rs2: u8,
) -> Result<(), P::Stop>
    requires { InRange (Instr.Op kind rd rs1 rs2) }
    ensures plays { P.Plays passer.old (row_walk (Instr.Op kind rd rs1 rs2) machine.old)
        (outcome result machine.new (P.tape passer.new)) }
    ensures memory { P.memory passer.new ≡ P.memory passer.old }
    ensures setting { machine.new.setting ≡ machine.old.setting }
{
    let first = operand(machine, passer, Slot::First, Aim::Put(Place::First), rs1)?;
    let second = operand(machine, passer, Slot::Second, Aim::Put(Place::Second), rs2)?;
    let made = compute(Operation::Result(kind), first, second);
    let value = passer.pass(Passing {
        point: machine.point(Slot::Result),
        aim: Aim::Put(Place::Register(rd)),
        work: Work::Computed(Operation::Result(kind), first, second),
        sources: operand_sources(),
        value: made,
    })?;
    machine.set_register(rd, value);
    machine.onward();
    Ok(())
}

/// A register and an immediate make a result.
pub(crate) fn immediate_turn<P: Passer>(
    machine: &mut Machine,
    passer: &mut P,
    kind: ImmKind,
    rd: u8,
    rs1: u8,
    imm: i32,
) -> Result<(), P::Stop>
    requires { InRange (Instr.OpImm kind rd rs1 imm) }
    ensures plays { P.Plays passer.old (row_walk (Instr.OpImm kind rd rs1 imm) machine.old)
        (outcome result machine.new (P.tape passer.new)) }
    ensures memory { P.memory passer.new ≡ P.memory passer.old }
    ensures setting { machine.new.setting ≡ machine.old.setting }
{
    let first = operand(machine, passer, Slot::First, Aim::Put(Place::First), rs1)?;
    let second = imm.cast_unsigned();
    let operation = Operation::Result(kind.operation());
    let made = compute(operation, first, second);
    let value = passer.pass(Passing {
        point: machine.point(Slot::Result),
        aim: Aim::Put(Place::Register(rd)),
        work: Work::Computed(operation, first, second),
        sources: offset_sources(second),
        value: made,
    })?;
    machine.set_register(rd, value);
    machine.onward();
    Ok(())
}

/// The upper 20 bits are put into a register.
pub(crate) fn upper_turn<P: Passer>(
    machine: &mut Machine,
    passer: &mut P,
    rd: u8,
    imm: u32,
) -> Result<(), P::Stop>
    requires { InRange (Instr.Lui rd imm) }
    ensures plays { P.Plays passer.old (row_walk (Instr.Lui rd imm) machine.old)
        (outcome result machine.new (P.tape passer.new)) }
    ensures memory { P.memory passer.new ≡ P.memory passer.old }
    ensures setting { machine.new.setting ≡ machine.old.setting }
{
    let value = upper(imm);
    passer.move_to(
        Place::Register(rd),
        Shape::Copied,
        Source::Constant(value),
        value,
    )?;
    machine.set_register(rd, value);
    machine.onward();
    Ok(())
}

/// AUIPC.
pub(crate) fn upper_pc_turn<P: Passer>(
    machine: &mut Machine,
    passer: &mut P,
    rd: u8,
    imm: u32,
) -> Result<(), P::Stop>
    requires { InRange (Instr.Auipc rd imm) }
    ensures plays { P.Plays passer.old (row_walk (Instr.Auipc rd imm) machine.old)
        (outcome result machine.new (P.tape passer.new)) }
    ensures memory { P.memory passer.new ≡ P.memory passer.old }
    ensures setting { machine.new.setting ≡ machine.old.setting }
{
    let value = machine.pc().wrapping_add(upper(imm));
    passer.move_to(
        Place::Register(rd),
        Shape::Copied,
        Source::Constant(value),
        value,
    )?;
    machine.set_register(rd, value);
    machine.onward();
    Ok(())
}
