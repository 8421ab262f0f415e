//! Rows of strings of bits. Values and masks are hexadecimal.

use crate::input::{hexadecimal, number, put_line};
use crossing_bits::{Bits, bit_count};
use std::alloc::Global;

/// The string that rows push to and take from.
#[derive(Drop)]
pub struct Strings {
    bits: Bits,
}

/// The value and the mask of a row.
fn pair_of(row: &str) -> Option<(u32, u32)> {
    match row.split_once(' ') {
        Some((value, mask)) => hexadecimal(value).zip(hexadecimal(mask)),
        None => None,
    }
}

/// Prints the word that was made of bits, if there is one.
fn print_word(rt: &HostRuntime, word: Option<u32>) -> bool {
    match word {
        Some(word) => println!(rt; "word {word:x}").is_ok(),
        None => println!(rt; "too few bits").is_ok(),
    }
}

/// Prints how many bits the mask of a row has.
fn print_ones(rt: &HostRuntime, row: &str) -> bool {
    match hexadecimal(row) {
        Some(mask) => print_word(rt, Some(bit_count(mask))),
        None => false,
    }
}

/// The empty string with room for as many bits as a row says; None where it says no number, or memory is short.
fn bits_of(alloc: Global, row: &str) -> Option<Bits> {
    Bits::with_room(alloc, number(row)?).ok()
}

impl Strings {
    /// The empty string; None where memory is short.
    pub fn new(alloc: Global) -> Option<Strings> {
        match Bits::with_room(alloc, 0) {
            Ok(bits) => Some(Strings { bits }),
            Err(_) => None,
        }
    }

    /// A new string with room for so many bits.
    fn start(&mut self, rt: &HostRuntime, row: &str) -> bool {
        match bits_of(rt.alloc(), row) {
            Some(bits) => {
                self.bits = bits;
                println!(rt; "no bits").is_ok()
            }
            None => false,
        }
    }

    /// Pushes the bits of a value under a mask, while there are at most 65,536.
    fn push(&mut self, rt: &HostRuntime, row: &str) -> bool {
        match pair_of(row) {
            Some((value, mask)) if self.bits.count() <= 65_504 && bit_count(mask) <= 32 => {
                self.bits.push_masked(value, mask).is_ok() && println!(rt; "pushed").is_ok()
            }
            _ => false,
        }
    }

    /// Prints all bits, how many there are, and how many are left.
    fn print_bits(&self, rt: &HostRuntime) -> bool {
        let bits = self.bits.as_slice();
        println!(rt;
            "{bits:?} count {} left {}",
            self.bits.count(),
            self.bits.left()
        )
        .is_ok()
    }

    /// Prints the bits as hex text.
    fn print_hex(&self, rt: &HostRuntime) -> bool {
        match self.bits.hex_text(rt.alloc()) {
            Ok(text) => put_line(rt, text.as_slice()),
            Err(_) => false,
        }
    }

    /// Prints the word that the bits under the mask of a row make.
    fn take(&mut self, rt: &HostRuntime, row: &str) -> bool {
        match hexadecimal(row) {
            Some(mask) => print_word(rt, self.bits.take_masked(mask)),
            None => false,
        }
    }

    /// Prints the value of a row with bits in place of those under its mask.
    fn patch(&mut self, rt: &HostRuntime, row: &str) -> bool {
        match pair_of(row) {
            Some((value, mask)) => print_word(rt, self.bits.patch(value, mask)),
            None => false,
        }
    }

    /// Prints the answer of a row; whether it is one of these rows, is printed, and memory is not short.
    pub fn print(&mut self, rt: &HostRuntime, name: &str, row: &str) -> bool {
        match name {
            "room" => self.start(rt, row),
            "push" => self.push(rt, row),
            "bits" => self.print_bits(rt),
            "hex" => self.print_hex(rt),
            "take" => self.take(rt, row),
            "patch" => self.patch(rt, row),
            "ones" => print_ones(rt, row),
            _ => false,
        }
    }
}
