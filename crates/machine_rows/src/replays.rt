//! Makes the replays of a table and the steps of its machines, and prints where each then stands. What must be printed
//! was found by hand.

mod guests;
mod outcomes;
mod stepping;
mod strings;

pub use guests::Guest;
use outcomes::{Outcome, outcome_after};
use rv32im_machine::{Machine, Stepped};
use std::io;
use stepping::{set_all, stepped};
use strings::string_of;

/// A line `COUNT NAME` or `COUNT NAME WORD ..`: a number of turns or steps, the row's name and what else it says.
fn row_of<'a>(text: &'a str) -> Option<(u32, &'a str, &'a str)> {
    let (count, rest) = text.split_once(' ')?;
    let (name, words) = rest.split_once(' ').unwrap_or((rest, ""));
    Some((count.parse().ok()?, name, words))
}

/// Prints where a replay stands that has written these bytes.
fn print_outcome(rt: &HostRuntime, name: &str, outcome: Outcome, output: &[u8]) -> io::Result<()> {
    let Outcome { answer, mark, left } = outcome;
    println!(rt;
        "{name}: {answer:?} at {:x}, exited {}, took {}, left {left}, wrote {output:?}",
        mark.address, mark.exited, mark.bits
    )
}

/// Makes the replay of a line `replay TURNS NAME VALUE/MASK ..` and prints where it then stands.
fn print_replay(rt: &HostRuntime, guest: &Guest, text: &str) -> io::Result<()> {
    let Some((turns, name, words)) = row_of(text) else {
        return println!(rt; "no replay");
    };
    let Some(mut bits) = string_of(rt.alloc(), words) else {
        return println!(rt; "{name}: no bits, or memory is short");
    };
    let Some(table) = guest.table(rt.alloc()) else {
        return println!(rt; "{name}: no replay, or memory is short");
    };
    let Some(mut replay) = guest.replay(rt.alloc(), &table) else {
        return println!(rt; "{name}: no replay, or memory is short");
    };
    let outcome = outcome_after(&mut replay, &mut bits, turns);
    print_outcome(rt, name, outcome, replay.output())
}

/// Prints where a machine stands: its program counter, x5 and x10, how much is left of its public input and of its
/// secret, how many bytes it has written, and the last of them.
fn print_machine(rt: &HostRuntime, name: &str, mode: Stepped, machine: &Machine) -> io::Result<()> {
    let registers = machine.registers();
    let (public, secret) = (machine.public_left(), machine.secret_left());
    println!(rt;
        "{name}: {mode:?} at {:x}, x5 {:x}, x10 {:x}, left {public} and {secret}, wrote {}, last {:?}",
        machine.pc(),
        registers.get(5),
        registers.get(10),
        machine.written(),
        machine.output().last()
    )
}

/// Sets the guest's machine as a line `step STEPS NAME pc=VALUE xNUMBER=VALUE ..` says, makes the steps and prints where
/// it then stands.
fn print_steps(rt: &HostRuntime, guest: &mut Guest, text: &str) -> io::Result<()> {
    let Some((steps, name, words)) = row_of(text) else {
        return println!(rt; "no steps");
    };
    let Some(machine) = guest.machine() else {
        return println!(rt; "{name}: no machine");
    };
    if set_all(machine, words).is_none() {
        return println!(rt; "{name}: no place or value");
    }
    let mode = stepped(machine, steps);
    print_machine(rt, name, mode, machine)
}

/// Does what a line of the table says.
pub fn follow(rt: &HostRuntime, guest: &mut Guest, line: &str) -> io::Result<()> {
    match line.split_once(' ') {
        Some(("replay", text)) => print_replay(rt, guest, text),
        Some(("step", text)) => print_steps(rt, guest, text),
        Some((part, text)) => match guest.put(rt.alloc(), part, text) {
            Some(()) => Ok(()),
            None => println!(rt; "no line of a table, or memory is short"),
        },
        None => println!(rt; "no line of a table"),
    }
}
