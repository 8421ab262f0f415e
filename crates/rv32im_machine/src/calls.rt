#![tactic(auto, unfolding(crate::specs::Language::walked), using(crate::proofs::Memories::known_inside))]

ghost use Rattle.std.specs.Prelude.{◌≡◌, ℕ, ◌+◌, ◌^◌, ◌<◌, ◌≤◌, length, IsTrue};
ghost use Rattle.flow_base.specs.Points.{is_slot, width_of};
ghost use Rattle.flow_base.specs.Guests.{is_inside};
ghost use Rattle.rv32im_machine.specs.State.{register_of};
ghost use Rattle.rv32im_machine.specs.Language.{turn_walk};
ghost use Rattle.rv32im_machine.specs.Rows.{row_walk};
ghost use Rattle.rv32im_machine.specs.Calls.{point, read_plan, write_plan, break_plan, answered, public_reads, secret_reads, writes, planned, with_first, with_arguments, exits, kind_row, MayPerform};
ghost use Rattle.rv32im_machine.specs.Playing.{Goes, Knows, outcome};

use crate::language::{Aim, Part, Passing, Place, Shape, Source, Sources, Work};
use crate::machines::Machine;
use crate::operands::operand;
use crate::passing::Passer;
use crate::plans::{plan_break, plan_read, plan_write};
use crate::stepping::{CallPlan, Stepped};
use flow_base::Slot;
use guest_calls::{CallKind, UNKNOWN_CALL, call_kind};
use rv32im_decode::Instr;

/// The answer of a call is put into a0.
fn answer<P: Passer>(machine: &mut Machine, passer: &mut P, value: u32) -> Result<(), P::Stop>
    ensures plays { P.Plays passer.old (turn_walk machine.old (answered value machine.old.control))
        (outcome result machine.new (P.tape passer.new)) }
    ensures memory { P.memory passer.new ≡ P.memory passer.old }
    ensures setting { machine.new.setting ≡ machine.old.setting }
{
    passer.move_to(
        Place::Register(10),
        Shape::Copied,
        Source::Constant(value),
        value,
    )?;
    machine.set_register(10, value);
    machine.onward();
    Ok(())
}

/// The exit: the low 8 bits of a0 are the status.
fn exit<P: Passer>(machine: &mut Machine, passer: &mut P) -> Result<(), P::Stop>
    ensures plays { P.Plays passer.old (turn_walk machine.old (exits machine.old.control))
        (outcome result machine.new (P.tape passer.new)) }
    ensures memory { P.memory passer.new ≡ P.memory passer.old }
    ensures setting { machine.new.setting ≡ machine.old.setting }
{
    let status = passer.pass(Passing {
        point: machine.point(Slot::Status),
        aim: Aim::Decide,
        work: Work::Shaped(Shape::Part(Part::Byte0)),
        sources: Sources::One(Source::At(Place::Register(10))),
        value: machine.register(10) & 0xff,
    })?;
    machine.end(Stepped::Exited(status as u8));
    Ok(())
}

/// The next bytes of the public input go to memory, one after another, from an address on.
fn read_public<P: Passer>(
    machine: &mut Machine,
    passer: &mut P,
    to: u32,
    count: u32,
) -> Result<(), P::Stop>
    requires memory { Knows (P.memory passer.old) machine.old.setting.base }
    requires inside { IsTrue (is_inside machine.old.setting.base to count) }
    requires below { to + count ≤ 2 ^ 32 }
    requires left { machine.old.control.public_at + count ≤ length machine.old.setting.public_input }
    ensures plays { P.Plays passer.old
        (turn_walk machine.old
        (public_reads count to count machine.old.setting.public_input machine.old.control))
        (outcome result machine.new (P.tape passer.new)) }
    ensures memory { P.memory passer.new ≡ P.memory passer.old }
    ensures setting { machine.new.setting ≡ machine.old.setting }
{
    for i in 0..count {
        let address = to + i;
        let byte = machine.next_public();
        let value = u32::from(byte);
        match passer.move_to(
            Place::Byte(address),
            Shape::Copied,
            Source::Constant(value),
            value,
        ) {
            Ok(()) => {
                machine.take_public();
                machine.set_byte(address, byte);
            }
            Err(stop) => return Err(stop),
        }
    }
    answer(machine, passer, count)
}

/// The next secret bytes pass, one after another, and go to memory from an address on.
fn read_secret<P: Passer>(
    machine: &mut Machine,
    passer: &mut P,
    to: u32,
    count: u32,
) -> Result<(), P::Stop>
    requires memory { Knows (P.memory passer.old) machine.old.setting.base }
    requires inside { IsTrue (is_inside machine.old.setting.base to count) }
    requires below { to + count ≤ 2 ^ 32 }
    requires left { machine.old.control.secret_at + count ≤ machine.old.setting.secret_length }
    ensures plays { P.Plays passer.old (turn_walk machine.old (secret_reads count to count machine.old.control))
        (outcome result machine.new (P.tape passer.new)) }
    ensures memory { P.memory passer.new ≡ P.memory passer.old }
    ensures setting { machine.new.setting ≡ machine.old.setting }
{
    for i in 0..count {
        let address = to + i;
        let byte = machine.next_secret();
        let passing = Passing {
            point: machine.point(Slot::SecretIn),
            aim: Aim::Put(Place::Byte(address)),
            work: Work::Shaped(Shape::Copied),
            sources: Sources::One(Source::Secret(machine.secret_at())),
            value: u32::from(byte),
        };
        let value = match passer.pass(passing) {
            Ok(value) => value,
            Err(stop) => return Err(stop),
        };
        machine.take_secret();
        machine.set_byte(address, value as u8);
    }
    answer(machine, passer, count)
}

/// The bytes of memory from an address on pass, one after another, and go to the output.
fn write_output<P: Passer>(
    machine: &mut Machine,
    passer: &mut P,
    from: u32,
    count: u32,
) -> Result<(), P::Stop>
    requires memory { Knows (P.memory passer.old) machine.old.setting.base }
    requires inside { IsTrue (is_inside machine.old.setting.base from count) }
    requires below { from + count ≤ 2 ^ 32 }
    requires room { length machine.old.control.output + count ≤ machine.old.setting.output_limit }
    ensures plays { P.Plays passer.old (turn_walk machine.old (writes count from count machine.old.control))
        (outcome result machine.new (P.tape passer.new)) }
    ensures memory { P.memory passer.new ≡ P.memory passer.old }
    ensures setting { machine.new.setting ≡ machine.old.setting }
{
    for i in 0..count {
        let address = from + i;
        let passing = Passing {
            point: machine.point(Slot::ByteOut),
            aim: Aim::Decide,
            work: Work::Shaped(Shape::Copied),
            sources: Sources::One(Source::At(Place::Byte(address))),
            value: u32::from(machine.byte(address)),
        };
        let value = match passer.pass(passing) {
            Ok(value) => value,
            Err(stop) => return Err(stop),
        };
        machine.emit(value as u8);
    }
    answer(machine, passer, count)
}

/// A plan is carried out.
fn perform<P: Passer>(machine: &mut Machine, passer: &mut P, plan: CallPlan) -> Result<(), P::Stop>
    requires memory { Knows (P.memory passer.old) machine.old.setting.base }
    requires plan { MayPerform plan machine.old }
    ensures plays { P.Plays passer.old (turn_walk machine.old (planned plan machine.old.setting machine.old.control))
        (outcome result machine.new (P.tape passer.new)) }
    ensures memory { P.memory passer.new ≡ P.memory passer.old }
    ensures setting { machine.new.setting ≡ machine.old.setting }
{
    match plan {
        CallPlan::Answer(value) => answer(machine, passer, value),
        CallPlan::PublicRead { to, count } => read_public(machine, passer, to, count),
        CallPlan::SecretRead { to, count } => read_secret(machine, passer, to, count),
        CallPlan::Write { from, count } => write_output(machine, passer, from, count),
        CallPlan::Brk(value) => {
            machine.set_break(value);
            answer(machine, passer, value)
        }
        CallPlan::Exit => exit(machine, passer),
        CallPlan::Stop(fault) => {
            machine.end(Stepped::Stopped(fault));
            Ok(())
        }
    }
}

/// A read call (63).
fn read_turn<P: Passer>(machine: &mut Machine, passer: &mut P) -> Result<(), P::Stop>
    requires memory { Knows (P.memory passer.old) machine.old.setting.base }
    ensures plays { P.Plays passer.old
        (turn_walk machine.old
        (with_arguments (read_plan machine.old.setting machine.old.control) machine.old.setting machine.old.control))
        (outcome result machine.new (P.tape passer.new)) }
    ensures memory { P.memory passer.new ≡ P.memory passer.old }
    ensures setting { machine.new.setting ≡ machine.old.setting }
{
    let descriptor = operand(machine, passer, Slot::Arg0, Aim::Decide, 10)?;
    let to = operand(machine, passer, Slot::Arg1, Aim::Decide, 11)?;
    let count = operand(machine, passer, Slot::Arg2, Aim::Decide, 12)?;
    let plan = plan_read(machine, descriptor, to, count);
    perform(machine, passer, plan)
}

/// A write call (64).
fn write_turn<P: Passer>(machine: &mut Machine, passer: &mut P) -> Result<(), P::Stop>
    requires memory { Knows (P.memory passer.old) machine.old.setting.base }
    ensures plays { P.Plays passer.old
        (turn_walk machine.old
        (with_arguments (write_plan machine.old.setting machine.old.control) machine.old.setting machine.old.control))
        (outcome result machine.new (P.tape passer.new)) }
    ensures memory { P.memory passer.new ≡ P.memory passer.old }
    ensures setting { machine.new.setting ≡ machine.old.setting }
{
    let descriptor = operand(machine, passer, Slot::Arg0, Aim::Decide, 10)?;
    let from = operand(machine, passer, Slot::Arg1, Aim::Decide, 11)?;
    let count = operand(machine, passer, Slot::Arg2, Aim::Decide, 12)?;
    let plan = plan_write(machine, descriptor, from, count);
    perform(machine, passer, plan)
}

/// A brk call (214).
fn break_turn<P: Passer>(machine: &mut Machine, passer: &mut P) -> Result<(), P::Stop>
    requires memory { Knows (P.memory passer.old) machine.old.setting.base }
    ensures plays { P.Plays passer.old
        (turn_walk machine.old
        (with_first (break_plan machine.old.setting machine.old.control) machine.old.setting machine.old.control))
        (outcome result machine.new (P.tape passer.new)) }
    ensures memory { P.memory passer.new ≡ P.memory passer.old }
    ensures setting { machine.new.setting ≡ machine.old.setting }
{
    let request = operand(machine, passer, Slot::Arg0, Aim::Decide, 10)?;
    let plan = plan_break(machine, request);
    perform(machine, passer, plan)
}

/// The call of a kind.
fn kind_turn<P: Passer>(
    machine: &mut Machine,
    passer: &mut P,
    kind: CallKind,
) -> Result<(), P::Stop>
    requires memory { Knows (P.memory passer.old) machine.old.setting.base }
    ensures plays { P.Plays passer.old (turn_walk machine.old (kind_row kind machine.old.setting machine.old.control))
        (outcome result machine.new (P.tape passer.new)) }
    ensures memory { P.memory passer.new ≡ P.memory passer.old }
    ensures setting { machine.new.setting ≡ machine.old.setting }
{
    match kind {
        CallKind::Read => read_turn(machine, passer),
        CallKind::Write => write_turn(machine, passer),
        CallKind::Exit => exit(machine, passer),
        CallKind::Brk => break_turn(machine, passer),
        CallKind::Unknown => answer(machine, passer, UNKNOWN_CALL),
    }
}

/// ECALL.
pub(crate) fn call_turn<P: Passer>(machine: &mut Machine, passer: &mut P) -> Result<(), P::Stop>
    requires memory { Knows (P.memory passer.old) machine.old.setting.base }
    ensures plays { P.Plays passer.old (row_walk Instr.Ecall machine.old)
        (outcome result machine.new (P.tape passer.new)) }
    ensures memory { P.memory passer.new ≡ P.memory passer.old }
    ensures setting { machine.new.setting ≡ machine.old.setting }
{
    let number = operand(machine, passer, Slot::Number, Aim::Decide, 17)?;
    kind_turn(machine, passer, call_kind(number))
}
