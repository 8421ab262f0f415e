//! Rows of what the calls of a guest answer.

use crate::input::hexadecimal;
use guest_calls::{
    BAD_ADDRESS, BAD_DESCRIPTOR, UNKNOWN_CALL, call_kind, inside, move_break, read_count,
    write_check,
};
use std::fmt::Debug;

/// The numbers of a row, 0 where there are fewer than five.
fn numbers(row: &str) -> Option<[u32; 5]> {
    let mut words = row.split(' ');
    let mut numbers = [0; 5];
    for place in 0..5 {
        match words.next() {
            Some(word) => {
                numbers[place] = hexadecimal(word)?;
            }
            None => return Some(numbers),
        }
    }
    Some(numbers)
}

/// Prints what the call of a row answers; whether it is printed.
fn print_answer<T: Debug>(rt: &HostRuntime, name: &str, answer: &T) -> bool {
    println!(rt; "{name} {answer:?}").is_ok()
}

/// Prints the word that the call of a row answers; whether it is printed.
fn print_word(rt: &HostRuntime, name: &str, word: u32) -> bool {
    println!(rt; "{name} {word:x}").is_ok()
}

/// Prints the answer of a row of these numbers; whether it is one of these rows, and is printed.
fn print_call(rt: &HostRuntime, name: &str, numbers: [u32; 5]) -> bool {
    let [first, second, third, fourth, fifth] = numbers;
    match name {
        "call" => print_answer(rt, name, &call_kind(first)),
        "inside" => print_answer(rt, name, &inside(first, second, third)),
        "count" => print_word(rt, name, read_count(first, second)),
        "write" => print_answer(rt, name, &write_check(first, second, third, fourth, fifth)),
        "break" => print_word(rt, name, move_break(first, second, third, fourth)),
        _ => false,
    }
}

/// Prints the answer of a row, whose numbers are hexadecimal; whether it is one of these rows, and is printed.
pub fn print(rt: &HostRuntime, name: &str, row: &str) -> bool {
    if name == "answers" {
        return println!(rt; "answers {BAD_DESCRIPTOR:x} {BAD_ADDRESS:x} {UNKNOWN_CALL:x}").is_ok();
    }
    match numbers(row) {
        Some(numbers) => print_call(rt, name, numbers),
        None => false,
    }
}
