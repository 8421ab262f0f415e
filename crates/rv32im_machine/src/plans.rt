ghost use Rattle.std.specs.Prelude.{◌≡◌, ◌-◌, ◌≤◌, length};
ghost use Rattle.guest_calls.specs.Calls.{bytes_read};
ghost use Rattle.rv32im_machine.specs.Calls.{public_plan, secret_plan, read_plan, append_plan, write_plan, break_plan, kind_plan, plan_of, MayPerform};

use crate::machines::Machine;
use crate::stepping::{Arguments, CallPlan, Fault};
use guest_calls::{
    BAD_ADDRESS, BAD_DESCRIPTOR, CallKind, UNKNOWN_CALL, WriteCheck, call_kind, read_count,
};

/// What a read of so many of the bytes that are left of the public input does.
fn public_read_plan(machine: &Machine, to: u32, count: u32) -> CallPlan
    requires { count ≤ length machine.now.setting.public_input - machine.now.control.public_at }
    ensures plan { result ≡ public_plan machine.now.setting to count }
    ensures may { MayPerform result machine.now }
{
    if count == 0 {
        CallPlan::Answer(0)
    } else if machine.is_inside(to, count) {
        CallPlan::PublicRead { to, count }
    } else {
        CallPlan::Answer(BAD_ADDRESS)
    }
}

/// What a read of so many of the secret bytes that are left does.
fn secret_read_plan(machine: &Machine, to: u32, count: u32) -> CallPlan
    requires { count ≤ machine.now.setting.secret_length - machine.now.control.secret_at }
    ensures plan { result ≡ secret_plan machine.now.setting to count }
    ensures may { MayPerform result machine.now }
{
    if count == 0 {
        CallPlan::Answer(0)
    } else if machine.is_inside(to, count) {
        CallPlan::SecretRead { to, count }
    } else {
        CallPlan::Answer(BAD_ADDRESS)
    }
}

/// How many bytes a read of `count` bytes of the public input reads.
fn public_count(machine: &Machine, count: u32) -> u32
    ensures { result ≡ bytes_read count (length machine.now.setting.public_input - machine.now.control.public_at) }
{
    let left = machine.public_left().min(u32::MAX as usize);
    read_count(count, left as u32)
}

/// What a read does: descriptor 0 is the public input, and 3 the secret input.
pub(crate) fn plan_read(machine: &Machine, descriptor: u32, to: u32, count: u32) -> CallPlan
    ensures plan { result ≡ read_plan machine.now.setting machine.now.control descriptor to count }
    ensures may { MayPerform result machine.now }
{
    match descriptor {
        0 => public_read_plan(machine, to, public_count(machine, count)),
        3 => secret_read_plan(machine, to, read_count(count, machine.secret_left())),
        _ => CallPlan::Answer(BAD_DESCRIPTOR),
    }
}

/// What a write of so many bytes does, where the descriptor is that of the output.
fn plan_append(machine: &Machine, from: u32, count: u32) -> CallPlan
    ensures plan { result ≡ append_plan machine.now.setting machine.now.control from count }
    ensures may { MayPerform result machine.now }
{
    if count == 0 {
        return CallPlan::Answer(0);
    }
    match machine.write_check(from, count) {
        WriteCheck::Append => CallPlan::Write { from, count },
        WriteCheck::BadAddress => CallPlan::Answer(BAD_ADDRESS),
        WriteCheck::OverLimit => CallPlan::Stop(Fault::OutputLimit { pc: machine.pc() }),
    }
}

/// What a write does: descriptors 1 and 2 both append to the output.
pub(crate) fn plan_write(machine: &Machine, descriptor: u32, from: u32, count: u32) -> CallPlan
    ensures plan { result ≡ write_plan machine.now.setting machine.now.control descriptor from count }
    ensures may { MayPerform result machine.now }
{
    if descriptor == 1 || descriptor == 2 {
        plan_append(machine, from, count)
    } else {
        CallPlan::Answer(BAD_DESCRIPTOR)
    }
}

/// What a brk does.
pub(crate) fn plan_break(machine: &Machine, request: u32) -> CallPlan
    ensures plan { result ≡ break_plan machine.now.setting machine.now.control request }
    ensures may { MayPerform result machine.now }
{
    CallPlan::Brk(machine.requested_break(request))
}

impl Machine {
    /// What a call does, by the numbers of Linux for RISC-V, once its arguments have gone on. A call that asks for
    /// fewer of them passes over the others; an exit's status is taken from a0 when the exit is carried out. It answers
    /// -9 for another descriptor, -14 for bytes that are not inside guest memory, and -38 for every other number; a
    /// write beyond the limit of the output stops the guest.
    pub fn call_plan(&self, arguments: &Arguments) -> CallPlan
        ensures plan { result ≡ plan_of self.now.setting self.now.control arguments.now }
        ensures may { MayPerform result self.now }
    {
        self.kind_plan(call_kind(arguments.number), arguments)
    }

    /// What a call of this kind does.
    fn kind_plan(&self, kind: CallKind, arguments: &Arguments) -> CallPlan
        ensures plan { result ≡ kind_plan kind self.now.setting self.now.control arguments.now }
        ensures may { MayPerform result self.now }
    {
        let Arguments {
            first,
            second,
            third,
            ..
        } = *arguments;
        match kind {
            CallKind::Read => plan_read(self, first, second, third),
            CallKind::Write => plan_write(self, first, second, third),
            CallKind::Exit => CallPlan::Exit,
            CallKind::Brk => plan_break(self, first),
            CallKind::Unknown => CallPlan::Answer(UNKNOWN_CALL),
        }
    }
}
