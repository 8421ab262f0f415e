ghost use Rattle.std.specs.Prelude.{◌≡◌};

use elf32_loader::Image;
use flow_base::Bytes;
use rv32im_machine::{Machine, Stepped};
use std::alloc::Global;

/// The machine of a program, whose public input is the bytes 7 and 9 and whose secret is the byte 3.
pub fn machine_of(alloc: Global, image: &Image, output_limit: u32) -> Option<Machine> {
    let public = Bytes::from_slice(alloc, &[7, 9]).ok()?;
    let secret = Bytes::from_slice(alloc, &[3]).ok()?;
    Machine::new(alloc, image, &public, &secret, output_limit).ok()
}

/// Sets what a text `pc=VALUE` or `xNUMBER=VALUE` names; the value is in hexadecimal digits.
fn set(machine: &mut Machine, text: &str) -> Option<()> {
    let (place, value) = text.split_once('=')?;
    let value = u32::from_str_radix(value, 16).ok()?;
    if place == "pc" {
        machine.set_pc(value);
        return Some(());
    }
    let (_, register) = place.split_once('x')?;
    let register = register.parse().ok()?;
    if register > 31 {
        return None;
    }
    machine.set_register(register, value);
    Some(())
}

/// Sets what each word of a text names.
pub fn set_all(machine: &mut Machine, text: &str) -> Option<()> {
    for word in text.split(' ') {
        if !word.is_empty() {
            set(machine, word)?;
        }
    }
    Some(())
}

/// Makes so many steps, and says how the machine then stands.
pub fn stepped(machine: &mut Machine, count: u32) -> Stepped
    ensures { result ≡ machine.new.control.mode }
{
    for _ in 0..count {
        machine.step();
    }
    machine.mode()
}
