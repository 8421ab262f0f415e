//! Rows of lists, registers, outputs, slots and words.

ghost use Rattle.std.specs.Prelude.{IfSome, IsTrue};
ghost use Rattle.flow_base.specs.Points.{is_slot};

use crate::input::{number, put_line};
use flow_base::{Bytes, List, Output, Registers, Slot, hex_digits, hex_word};
use std::alloc::Global;

/// The list of the numbers of a row.
fn list_of(alloc: Global, row: &str) -> Option<List<u32>> {
    let mut numbers = List::new(alloc);
    for word in row.split(' ') {
        numbers.push(number(word)?).ok()?;
    }
    Some(numbers)
}

/// Prints how many numbers a list has, the second and the third of them, and all.
fn print_list(rt: &HostRuntime, row: &str) -> bool {
    let Some(numbers) = list_of(rt.alloc(), row) else {
        return false;
    };
    let count = numbers.len();
    let second = numbers.get(1).copied();
    let third = numbers.get(2).copied();
    let all = numbers.into_vec();
    println!(rt;
        "{count} numbers, {second:?}, {third:?}, {:?}",
        all.as_slice()
    )
    .is_ok()
}

/// The two numbers of a row.
fn pair_of(row: &str) -> Option<(u32, u32)> {
    match row.split_once(' ') {
        Some((first, second)) => number(first).zip(number(second)),
        None => None,
    }
}

/// Prints what a register holds after a write.
fn print_register(rt: &HostRuntime, row: &str) -> bool {
    let Some((register, value)) = pair_of(row) else {
        return false;
    };
    if register > 31 {
        return false;
    }
    let mut registers = Registers::new();
    registers.set(register as u8, value);
    println!(rt; "register {}", registers.get(register as u8)).is_ok()
}

/// The output of the status and the bytes of a row.
fn output_of(alloc: Global, row: &str) -> Option<Output> {
    let (status, text) = row.split_once(' ').unwrap_or((row, ""));
    let status = status.parse::<u8>().ok()?;
    let bytes = Bytes::from_slice(alloc, text.as_bytes()).ok()?;
    Some(Output { bytes, status })
}

/// Prints an output of a status and bytes.
fn print_output(rt: &HostRuntime, row: &str) -> bool {
    match output_of(rt.alloc(), row) {
        Some(output) => {
            println!(rt; "status {}", output.status).is_ok()
                && put_line(rt, output.bytes.as_slice())
        }
        None => false,
    }
}

/// The slot of a kind with this number.
fn numbered_slot(kind: &str, count: u8) -> Option<Slot>
    ensures { IfSome result (λ slot. IsTrue (is_slot slot)) }
{
    match kind {
        "register" if 1 <= count && count <= 31 => Some(Slot::OutReg(count)),
        "range" if count < 64 => Some(Slot::OutRange(count)),
        _ => None,
    }
}

/// The slot that a row names.
fn slot_of(row: &str) -> Option<Slot>
    ensures { IfSome result (λ slot. IsTrue (is_slot slot)) }
{
    match row.split_once(' ') {
        Some((kind, count)) => numbered_slot(kind, count.parse::<u8>().ok()?),
        None if row == "decision" => Some(Slot::Decision),
        None => None,
    }
}

/// Prints the number and the width of a slot.
fn print_slot(rt: &HostRuntime, row: &str) -> bool {
    match slot_of(row) {
        Some(slot) => println!(rt; "slot {} width {:x}", slot.number(), slot.width()).is_ok(),
        None => false,
    }
}

/// Prints the digits of a word, and the word.
fn print_word(rt: &HostRuntime, row: &str) -> bool {
    match number(row) {
        Some(word) => put_line(rt, &hex_digits(word)) && put_line(rt, &hex_word(word)),
        None => false,
    }
}

/// Prints the answer of a row; whether it is one of these rows, is printed, and memory is not short.
pub fn print(rt: &HostRuntime, name: &str, row: &str) -> bool {
    match name {
        "list" => print_list(rt, row),
        "register" => print_register(rt, row),
        "output" => print_output(rt, row),
        "slot" => print_slot(rt, row),
        "word" => print_word(rt, row),
        _ => false,
    }
}
