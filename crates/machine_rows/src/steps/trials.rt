ghost use Rattle.std.specs.Prelude.{◌≡◌, IsTrue, ◌↔◌, if◌then◌else◌};
ghost use Rattle.flow_base.specs.Guests.{is_inside};
ghost use Rattle.rv32im_machine.specs.State.{byte_of};
ghost use Rattle.machine_rows.specs.Trials.{IsSeenOf};

use crate::steps::cases::{Case, Seen};
use elf32_loader::load_image;
use flow_base::Bytes;
use guest_calls::inside;
use rv32im_machine::{Machine, Stepped};
use std::alloc::Global;

/// A program file (ELF32, System V ABI) with one segment of four zeros, at 0x10000.
const FILE: [u8; 88] = [
    0x7f, 0x45, 0x4c, 0x46, 0x01, 0x01, 0x01, 0x00, 0x00, 0x00, 0x00, 0x00, 0x00, 0x00, 0x00, 0x00,
    0x02, 0x00, 0xf3, 0x00, 0x01, 0x00, 0x00, 0x00, 0x00, 0x00, 0x01, 0x00, 0x34, 0x00, 0x00, 0x00,
    0x00, 0x00, 0x00, 0x00, 0x00, 0x00, 0x00, 0x00, 0x34, 0x00, 0x20, 0x00, 0x01, 0x00, 0x00, 0x00,
    0x00, 0x00, 0x00, 0x00, 0x01, 0x00, 0x00, 0x00, 0x54, 0x00, 0x00, 0x00, 0x00, 0x00, 0x01, 0x00,
    0x00, 0x00, 0x01, 0x00, 0x04, 0x00, 0x00, 0x00, 0x04, 0x00, 0x00, 0x00, 0x07, 0x00, 0x00, 0x00,
    0x01, 0x00, 0x00, 0x00, 0x00, 0x00, 0x00, 0x00,
];

/// A guest whose memory stands from 0x10000 on; None where there is not enough memory for it.
pub(crate) fn guest(alloc: Global) -> Option<Machine> {
    let image = load_image(alloc, &FILE).ok()?;
    let none = Bytes::new(alloc);
    Machine::new(alloc, &image, &none, &none, 0).ok()
}

/// Whether an address is one of guest memory.
fn holds(machine: &Machine, address: u32) -> bool
    ensures { result ≡ is_inside machine.now.setting.base address 1 }
{
    inside(machine.base(), address, 1)
}

/// Puts bytes into guest memory from an address on, but for those that are outside it.
fn put(machine: &mut Machine, address: u32, bytes: &[u8]) {
    let mut at = address;
    for byte in bytes {
        if holds(machine, at) {
            machine.set_byte(at, *byte);
        }
        at = at.wrapping_add(1);
    }
}

/// The byte at an address, and 0 outside guest memory.
fn byte(machine: &Machine, address: u32) -> u8
    ensures { result ≡ (if is_inside machine.now.setting.base address 1
        then byte_of machine.now.setting.base machine.now.store address else 0) }
{
    if holds(machine, address) {
        machine.byte(address)
    } else {
        0
    }
}

/// The eight bytes from an address on, the lowest first.
fn bytes(machine: &Machine, address: u32) -> u64 {
    let mut bytes = [0; 8];
    let mut at = address;
    for place in bytes.iter_mut() {
        *place = byte(machine, at);
        at = at.wrapping_add(1);
    }
    u64::from_le_bytes(bytes)
}

/// What there is of a guest to compare.
fn look(machine: &Machine, address: u32) -> Seen
    ensures { IsSeenOf machine.now result }
{
    Seen {
        pc: machine.pc(),
        x5: machine.registers().get(5),
        x6: machine.registers().get(6),
        x7: machine.registers().get(7),
        bytes: bytes(machine, address),
    }
}

/// Sets a guest as the case says.
fn set(machine: &mut Machine, case: &Case) {
    put(machine, case.address, &case.before.bytes.to_le_bytes());
    put(machine, case.before.pc, &case.word.to_le_bytes());
    machine.end(Stepped::Ran);
    machine.set_pc(case.before.pc);
    machine.set_register(5, case.before.x5);
    machine.set_register(6, case.before.x6);
    machine.set_register(7, case.before.x7);
}

/// One step of a guest that is set as the case says: what the step answers, and what there is after it.
pub(crate) fn run(machine: &mut Machine, case: &Case) -> (Stepped, Seen)
    ensures mode { result.0 ≡ machine.new.control.mode }
    ensures seen { IsSeenOf machine.new result.1 }
{
    set(machine, case);
    let mode = machine.step();
    (mode, look(machine, case.address))
}

/// Whether the step went on, and left what the case expects.
pub(crate) fn agrees(mode: Stepped, found: Seen, case: &Case) -> bool
    ensures { IsTrue result ↔ ((mode ≡ Stepped.Ran) × (found ≡ case.now.after)) }
{
    mode == Stepped::Ran && found == case.after
}
