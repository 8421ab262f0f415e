#![tactic(auto, unfolding(crate::specs::Language::walked), using(crate::proofs::Memories::known_inside))]

ghost use Rattle.std.specs.Prelude.{◌≡◌};
ghost use Rattle.rv32im_decode.specs.Encoding.{InRange};
ghost use Rattle.rv32im_decode.specs.Decoding.{decoded};
ghost use Rattle.rv32im_machine.specs.State.{onward};
ghost use Rattle.rv32im_machine.specs.Language.{turn_walk, Ends};
ghost use Rattle.rv32im_machine.specs.Rows.{row_walk, stops, running, walk_of};
ghost use Rattle.rv32im_machine.specs.Playing.{Knows, outcome};

use crate::calls::call_turn;
use crate::jumps::{branch_turn, jump_register_turn, jump_turn};
use crate::language::Seen;
use crate::loads_stores::{load_turn, store_turn};
use crate::machines::Machine;
use crate::passing::Passer;
use crate::results::{immediate_turn, register_turn, upper_pc_turn, upper_turn};
use crate::stepping::{Fault, Stepped};
use rv32im_decode::{Instr, decode};

/// One turn of a machine, each of its values handed to a passer; a machine that has exited or is stopped stands still.
/// Where the passer stops the turn, the machine is left in the middle of it, and no clause says where; but the machine
/// keeps what it was begun with, and the passer knows of the same guest memory, so that the next turn may be played.
pub fn turn_by<P: Passer>(machine: &mut Machine, passer: &mut P) -> Result<(), P::Stop>
    requires memory { Knows (P.memory passer.old) machine.old.setting.base }
    ensures plays { P.Plays passer.old (walk_of machine.old) (outcome result machine.new (P.tape passer.new)) }
    ensures memory { P.memory passer.new ≡ P.memory passer.old }
    ensures setting { machine.new.setting ≡ machine.old.setting }
{
    match machine.mode() {
        Stepped::Ran => running_turn(machine, passer),
        Stepped::Exited(_) => Ok(()),
        Stepped::Stopped(_) => Ok(()),
    }
}

/// The turn of a machine that has not ended.
fn running_turn<P: Passer>(machine: &mut Machine, passer: &mut P) -> Result<(), P::Stop>
    requires memory { Knows (P.memory passer.old) machine.old.setting.base }
    ensures plays { P.Plays passer.old (turn_walk machine.old (running machine.old.setting machine.old.control))
        (outcome result machine.new (P.tape passer.new)) }
    ensures memory { P.memory passer.new ≡ P.memory passer.old }
    ensures setting { machine.new.setting ≡ machine.old.setting }
{
    let pc = machine.pc();
    if !machine.is_inside(pc, 4) {
        return stop(machine, passer, Fault::FetchOutside { pc });
    }
    let word = machine.word(pc);
    passer.look(Seen::Word(pc), word)?;
    match decode(word) {
        Some(instr) => instr_turn(machine, passer, instr),
        None => stop(machine, passer, Fault::Illegal { pc, word }),
    }
}

/// The turn of an instruction.
fn instr_turn<P: Passer>(machine: &mut Machine, passer: &mut P, instr: Instr) -> Result<(), P::Stop>
    requires memory { Knows (P.memory passer.old) machine.old.setting.base }
    requires range { InRange instr }
    ensures plays { P.Plays passer.old (row_walk instr machine.old) (outcome result machine.new (P.tape passer.new)) }
    ensures memory { P.memory passer.new ≡ P.memory passer.old }
    ensures setting { machine.new.setting ≡ machine.old.setting }
{
    match instr {
        Instr::Lui { rd, imm } => upper_turn(machine, passer, rd, imm),
        Instr::Auipc { rd, imm } => upper_pc_turn(machine, passer, rd, imm),
        Instr::Jal { rd, offset } => jump_turn(machine, passer, rd, offset),
        Instr::Jalr { rd, rs1, imm } => jump_register_turn(machine, passer, rd, rs1, imm),
        Instr::Branch {
            kind,
            rs1,
            rs2,
            offset,
        } => branch_turn(machine, passer, kind, rs1, rs2, offset),
        Instr::Load { kind, rd, rs1, imm } => load_turn(machine, passer, kind, rd, rs1, imm),
        Instr::Store {
            kind,
            rs1,
            rs2,
            imm,
        } => store_turn(machine, passer, kind, rs1, rs2, imm),
        Instr::OpImm { kind, rd, rs1, imm } => immediate_turn(machine, passer, kind, rd, rs1, imm),
        Instr::Op { kind, rd, rs1, rs2 } => register_turn(machine, passer, kind, rd, rs1, rs2),
        Instr::Fence { .. } => pass_over(machine, passer),
        Instr::Ecall => call_turn(machine, passer),
        Instr::Ebreak => {
            let pc = machine.pc();
            stop(machine, passer, Fault::Breakpoint { pc })
        }
    }
}

/// The next instruction is gone on to, and nothing else is done.
fn pass_over<P: Passer>(machine: &mut Machine, passer: &mut P) -> Result<(), P::Stop>
    ensures plays { P.Plays passer.old (turn_walk machine.old (Ends (onward machine.old.control)))
        (outcome result machine.new (P.tape passer.new)) }
    ensures memory { P.memory passer.new ≡ P.memory passer.old }
    ensures setting { machine.new.setting ≡ machine.old.setting }
{
    machine.onward();
    Ok(())
}

/// The guest is stopped.
fn stop<P: Passer>(machine: &mut Machine, passer: &mut P, fault: Fault) -> Result<(), P::Stop>
    ensures plays { P.Plays passer.old (turn_walk machine.old (stops fault machine.old.control))
        (outcome result machine.new (P.tape passer.new)) }
    ensures memory { P.memory passer.new ≡ P.memory passer.old }
    ensures setting { machine.new.setting ≡ machine.old.setting }
{
    machine.end(Stepped::Stopped(fault));
    Ok(())
}
