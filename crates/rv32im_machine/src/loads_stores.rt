#![tactic(auto, unfolding(crate::specs::Language::walked), using(crate::proofs::Memories::known_inside))]

ghost use Rattle.std.specs.Prelude.{◌≡◌, ◌+◌, ◌^◌, ◌<◌, ◌≤◌, IsTrue, OnOk};
ghost use Rattle.rv32im_decode.specs.Operations.{load_size, store_size};
ghost use Rattle.rv32im_decode.specs.Encoding.{InRange};
ghost use Rattle.flow_base.specs.Guests.{is_inside};
ghost use Rattle.rv32im_machine.specs.State.{joined, with_byte};
ghost use Rattle.rv32im_machine.specs.Language.{shaped, part_of, turn_walk, walk, with_store, Held, Moved, Walk, bytes_at};
ghost use Rattle.rv32im_machine.specs.Private.LoadsStores.{high_half_at};
ghost use Rattle.rv32im_machine.specs.Rows.{row_walk, load_checked, store_checked, stores, store_at, loaded_from};
ghost use Rattle.rv32im_machine.specs.Playing.{Goes, Knows, are_bytes, outcome};

use crate::language::{Aim, Part, Passing, Place, Shape, Source, Sources, Work};
use crate::machines::Machine;
use crate::operands::{SUM, decided_address, operand};
use crate::passing::Passer;
use crate::stepping::{Fault, Stepped};
use flow_base::Slot;
use rv32im_decode::{Instr, LoadKind, StoreKind};

/// A load.
pub(crate) fn load_turn<P: Passer>(
    machine: &mut Machine,
    passer: &mut P,
    kind: LoadKind,
    rd: u8,
    rs1: u8,
    imm: i32,
) -> Result<(), P::Stop>
    requires memory { Knows (P.memory passer.old) machine.old.setting.base }
    requires range { InRange (Instr.Load kind rd rs1 imm) }
    ensures plays { P.Plays passer.old (row_walk (Instr.Load kind rd rs1 imm) machine.old)
        (outcome result machine.new (P.tape passer.new)) }
    ensures memory { P.memory passer.new ≡ P.memory passer.old }
    ensures setting { machine.new.setting ≡ machine.old.setting }
{
    let first = operand(machine, passer, Slot::First, Aim::Put(Place::First), rs1)?;
    let address = decided_address(machine, passer, SUM, first, imm.cast_unsigned())?;
    load_from(machine, passer, kind, rd, address)
}

/// The rest of a load, once its address is decided.
fn load_from<P: Passer>(
    machine: &mut Machine,
    passer: &mut P,
    kind: LoadKind,
    rd: u8,
    address: u32,
) -> Result<(), P::Stop>
    requires memory { Knows (P.memory passer.old) machine.old.setting.base }
    requires rd { rd < 32 }
    ensures plays { (held : Held) →
        P.Plays passer.old (walk machine.old (load_checked kind rd machine.old.setting machine.old.control address)
        machine.old.store held)
        (outcome result machine.new (P.tape passer.new)) }
    ensures memory { P.memory passer.new ≡ P.memory passer.old }
    ensures setting { machine.new.setting ≡ machine.old.setting }
{
    if !machine.is_inside(address, kind.size()) {
        let pc = machine.pc();
        machine.end(Stepped::Stopped(Fault::LoadOutside { pc, address }));
        return Ok(());
    }
    let value = passer.pass(Passing {
        point: machine.point(Slot::Result),
        aim: Aim::Put(Place::Register(rd)),
        work: Work::Shaped(Shape::Extended(kind)),
        sources: load_sources(kind, address),
        value: loaded(machine, kind, address),
    })?;
    machine.set_register(rd, value);
    machine.onward();
    Ok(())
}

/// The bytes that a load reads.
fn load_sources(kind: LoadKind, address: u32) -> Sources
    ensures sources { result ≡ loaded_from kind address }
    ensures bytes { IsTrue (are_bytes result) }
{
    match kind {
        LoadKind::Lb | LoadKind::Lbu => Sources::Byte(address),
        LoadKind::Lh | LoadKind::Lhu => Sources::Half(address),
        LoadKind::Lw => Sources::Word(address),
    }
}

/// The loaded bytes of guest memory, extended to a word.
pub(crate) fn loaded(machine: &Machine, kind: LoadKind, address: u32) -> u32
    requires inside { IsTrue (is_inside machine.now.setting.base address (load_size kind)) }
    requires below { address + load_size kind ≤ 2 ^ 32 }
    ensures { result ≡ shaped (Shape.Extended kind) (bytes_at machine.now (loaded_from kind address)) }
{
    match kind {
        LoadKind::Lb => kind.extend(u32::from(machine.byte(address))),
        LoadKind::Lbu => kind.extend(u32::from(machine.byte(address))),
        LoadKind::Lh => kind.extend(half(machine, address)),
        LoadKind::Lhu => kind.extend(half(machine, address)),
        LoadKind::Lw => kind.extend(machine.word(address)),
    }
}

/// The two bytes from an address on, the lowest first.
fn half(machine: &Machine, address: u32) -> u32
    requires inside { IsTrue (is_inside machine.now.setting.base address 2) }
    requires below { address + 2 ≤ 2 ^ 32 }
    ensures { result ≡ joined (bytes_at machine.now (Sources.Half address)) }
{
    u32::from(machine.byte(address)) + 256 * u32::from(machine.byte(address + 1))
}

/// A store.
pub(crate) fn store_turn<P: Passer>(
    machine: &mut Machine,
    passer: &mut P,
    kind: StoreKind,
    rs1: u8,
    rs2: u8,
    imm: i32,
) -> Result<(), P::Stop>
    requires memory { Knows (P.memory passer.old) machine.old.setting.base }
    requires range { InRange (Instr.Store kind rs1 rs2 imm) }
    ensures plays { P.Plays passer.old (row_walk (Instr.Store kind rs1 rs2 imm) machine.old)
        (outcome result machine.new (P.tape passer.new)) }
    ensures memory { P.memory passer.new ≡ P.memory passer.old }
    ensures setting { machine.new.setting ≡ machine.old.setting }
{
    store_by(machine, passer, kind, rs1, rs2, imm.cast_unsigned())
}

/// A store with this immediate as a word.
fn store_by<P: Passer>(
    machine: &mut Machine,
    passer: &mut P,
    kind: StoreKind,
    rs1: u8,
    rs2: u8,
    immediate: u32,
) -> Result<(), P::Stop>
    requires memory { Knows (P.memory passer.old) machine.old.setting.base }
    requires first { rs1 < 32 }
    requires second { rs2 < 32 }
    ensures plays { P.Plays passer.old
        (turn_walk machine.old (stores kind rs1 rs2 immediate machine.old.setting machine.old.control))
        (outcome result machine.new (P.tape passer.new)) }
    ensures memory { P.memory passer.new ≡ P.memory passer.old }
    ensures setting { machine.new.setting ≡ machine.old.setting }
{
    let first = operand(machine, passer, Slot::First, Aim::Put(Place::First), rs1)?;
    let word = operand(machine, passer, Slot::Second, Aim::Put(Place::Second), rs2)?;
    match decided_address(machine, passer, SUM, first, immediate) {
        Ok(address) => checked_store(machine, passer, kind, address, word),
        Err(stop) => Err(stop),
    }
}

/// The rest of a store, once its address is decided.
fn checked_store<P: Passer>(
    machine: &mut Machine,
    passer: &mut P,
    kind: StoreKind,
    address: u32,
    word: u32,
) -> Result<(), P::Stop>
    requires memory { Knows (P.memory passer.old) machine.old.setting.base }
    ensures plays { (held : Held) → held.second ≡ word →
        P.Plays passer.old (walk machine.old (store_checked kind machine.old.setting machine.old.control address)
        machine.old.store held)
        (outcome result machine.new (P.tape passer.new)) }
    ensures memory { P.memory passer.new ≡ P.memory passer.old }
    ensures setting { machine.new.setting ≡ machine.old.setting }
{
    if machine.is_inside(address, kind.size()) {
        store_to(machine, passer, kind, address, word)
    } else {
        let pc = machine.pc();
        machine.end(Stepped::Stopped(Fault::StoreOutside { pc, address }));
        Ok(())
    }
}

/// The rest of a store, once its address is inside guest memory.
fn store_to<P: Passer>(
    machine: &mut Machine,
    passer: &mut P,
    kind: StoreKind,
    address: u32,
    word: u32,
) -> Result<(), P::Stop>
    requires memory { Knows (P.memory passer.old) machine.old.setting.base }
    requires inside { IsTrue (is_inside machine.old.setting.base address (store_size kind)) }
    requires below { address + store_size kind ≤ 2 ^ 32 }
    ensures plays { (held : Held) → held.second ≡ word →
        P.Plays passer.old (walk machine.old (store_at kind address machine.old.control) machine.old.store held)
        (outcome result machine.new (P.tape passer.new)) }
    ensures memory { P.memory passer.new ≡ P.memory passer.old }
    ensures setting { machine.new.setting ≡ machine.old.setting }
{
    match kind {
        StoreKind::Sb => store_byte_to(machine, passer, address, word),
        StoreKind::Sh => store_half_to(machine, passer, address, word),
        StoreKind::Sw => store_word_to(machine, passer, address, word),
    }
}

/// The rest of SB, once its address is inside guest memory.
fn store_byte_to<P: Passer>(
    machine: &mut Machine,
    passer: &mut P,
    address: u32,
    word: u32,
) -> Result<(), P::Stop>
    requires memory { Knows (P.memory passer.old) machine.old.setting.base }
    requires inside { IsTrue (is_inside machine.old.setting.base address 1) }
    ensures plays { (held : Held) → held.second ≡ word →
        P.Plays passer.old (walk machine.old (store_at StoreKind.Sb address machine.old.control) machine.old.store held)
        (outcome result machine.new (P.tape passer.new)) }
    ensures memory { P.memory passer.new ≡ P.memory passer.old }
    ensures setting { machine.new.setting ≡ machine.old.setting }
{
    store_part(machine, passer, address, Part::Byte0, word)?;
    machine.onward();
    Ok(())
}

/// The rest of SH, once its address is inside guest memory.
fn store_half_to<P: Passer>(
    machine: &mut Machine,
    passer: &mut P,
    address: u32,
    word: u32,
) -> Result<(), P::Stop>
    requires memory { Knows (P.memory passer.old) machine.old.setting.base }
    requires inside { IsTrue (is_inside machine.old.setting.base address 2) }
    requires below { address + 2 ≤ 2 ^ 32 }
    ensures plays { (held : Held) → held.second ≡ word →
        P.Plays passer.old (walk machine.old (store_at StoreKind.Sh address machine.old.control) machine.old.store held)
        (outcome result machine.new (P.tape passer.new)) }
    ensures memory { P.memory passer.new ≡ P.memory passer.old }
    ensures setting { machine.new.setting ≡ machine.old.setting }
{
    store_part(machine, passer, address, Part::Byte0, word)?;
    store_part(machine, passer, address + 1, Part::Byte1, word)?;
    machine.onward();
    Ok(())
}

/// The rest of SW, once its address is inside guest memory.
fn store_word_to<P: Passer>(
    machine: &mut Machine,
    passer: &mut P,
    address: u32,
    word: u32,
) -> Result<(), P::Stop>
    requires memory { Knows (P.memory passer.old) machine.old.setting.base }
    requires inside { IsTrue (is_inside machine.old.setting.base address 4) }
    requires below { address + 4 ≤ 2 ^ 32 }
    ensures plays { (held : Held) → held.second ≡ word →
        P.Plays passer.old (walk machine.old (store_at StoreKind.Sw address machine.old.control) machine.old.store held)
        (outcome result machine.new (P.tape passer.new)) }
    ensures memory { P.memory passer.new ≡ P.memory passer.old }
    ensures setting { machine.new.setting ≡ machine.old.setting }
{
    store_part(machine, passer, address, Part::Byte0, word)?;
    store_part(machine, passer, address + 1, Part::Byte1, word)?;
    store_high_to(machine, passer, address, word)
}

/// The rest of SW, once its lower two bytes are written.
#[inline(always)]
fn store_high_to<P: Passer>(
    machine: &mut Machine,
    passer: &mut P,
    address: u32,
    word: u32,
) -> Result<(), P::Stop>
    requires memory { Knows (P.memory passer.old) machine.old.setting.base }
    requires inside { IsTrue (is_inside machine.old.setting.base address 4) }
    requires below { address + 4 ≤ 2 ^ 32 }
    ensures plays { (held : Held) → held.second ≡ word →
        P.Plays passer.old (walk machine.old (high_half_at address machine.old.control) machine.old.store held)
        (outcome result machine.new (P.tape passer.new)) }
    ensures memory { P.memory passer.new ≡ P.memory passer.old }
    ensures setting { machine.new.setting ≡ machine.old.setting }
{
    store_part(machine, passer, address + 2, Part::Byte2, word)?;
    store_part(machine, passer, address + 3, Part::Byte3, word)?;
    machine.onward();
    Ok(())
}

/// A byte of the second operand goes to an address.
#[inline(always)]
fn store_part<P: Passer>(
    machine: &mut Machine,
    passer: &mut P,
    address: u32,
    part: Part,
    word: u32,
) -> Result<(), P::Stop>
    requires memory { Knows (P.memory passer.old) machine.old.setting.base }
    requires inside { IsTrue (is_inside machine.old.setting.base address 1) }
    ensures goes { (walk : Walk) → Goes result (λ done. P.Plays passer.new walk)
        (P.Plays passer.old
        (Moved (Place.Byte address) (Shape.Part part) (Source.At Place.Second) (part_of part word) walk)) }
    ensures stored { OnOk result (machine.new
        ≡ with_store (with_byte machine.old.setting.base address (part_of part word) machine.old.store) machine.old) }
    ensures memory { P.memory passer.new ≡ P.memory passer.old }
    ensures setting { machine.new.setting ≡ machine.old.setting }
{
    let byte = byte_of_word(part, word);
    passer.move_to(
        Place::Byte(address),
        Shape::Part(part),
        Source::At(Place::Second),
        u32::from(byte),
    )?;
    machine.set_byte(address, byte);
    Ok(())
}

/// A byte of a word.
fn byte_of_word(part: Part, word: u32) -> u8
    ensures { result ≡ part_of part word }
{
    match part {
        Part::Byte0 => (word % 256) as u8,
        Part::Byte1 => (word / 256 % 256) as u8,
        Part::Byte2 => (word / 65_536 % 256) as u8,
        Part::Byte3 => (word / 16_777_216 % 256) as u8,
    }
}
