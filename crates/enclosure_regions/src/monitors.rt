ghost use Rattle.std.specs.Prelude.{◌≡◌, ◌<◌, length, option_map, slice_get, None, Some, Ok, IsSome, IsTrue, IfOk};
ghost use Rattle.std.specs.Prelude.{OnErr, OnOk};
ghost use Rattle.std.specs.Prelude.{replicate, List as Seq};
ghost use Rattle.std.specs.List.{list_all};
ghost use Rattle.enclosure_regions.specs.Breaks.{byte_break, call_break, keep_break, range_break, register_break};
ghost use Rattle.enclosure_regions.specs.Regions.{is_range, is_region};
ghost use Rattle.enclosure_regions.specs.Turns.{turn_kind as kind_of_turn};
ghost use Rattle.enclosure_regions.specs.Watching.{EntersOneOf, Watch, after_entry, after_leave, break_of};
ghost use Rattle.enclosure_regions.specs.Watching.{entry_answer};
ghost use Rattle.enclosure_regions.specs.Watching.{last_start, new_watch, unless_break};

use crate::break_kinds::Break;
use crate::copying::copy_regions;
use crate::ranges_of_regions::range_start;
use crate::region_checks::{broken_at_entry, broken_at_leave, written_byte, written_register};
use crate::region_lists::Regions;
use crate::region_parts::{Range, Region};
use crate::turn_kinds::TurnKind;
use crate::turning::{turn_inside, turn_outside};
use flow_base::{NoMemory, Registers};
use std::alloc::Global;
use std::marker::Model;

/// Watches a run with regions: which region it is in, and what breaks that region.
#[derive(Drop)]
pub struct Monitor {
    regions: Regions,
    entered: Option<u32>,
    last: u32,
    registers: Registers,
}

impl Model for Monitor {
    ghost use Rattle.std.specs.Prelude.{IsTrue};
    ghost use Rattle.enclosure_regions.specs.Watching.{Watch, is_one_of};

    ghost Value = { Watch };

    ghost view = { λ m. record { regions = m.regions.items; entered = m.entered; last = m.last; registers = m.registers } };

    ghost invariant = { λ m. IsTrue (is_one_of m.regions.items m.entered) };
}

impl Monitor {
    /// A monitor of a run that has entered no region yet. Its error is lack of memory; no later call takes any.
    pub fn new(alloc: Global, regions: &Regions) -> Result<Monitor, NoMemory>
        ensures { IfOk result (λ monitor. monitor ≡ new_watch regions.now.items) }
    {
        Ok(Monitor {
            regions: copy_regions(alloc, regions)?,
            entered: None,
            last: 0,
            registers: Registers::new(),
        })
    }

    /// The kind of the turn at an address: the leave where a region is entered and this is its leave address, the entry
    /// where none is entered and this is the enter address of one, and else a step.
    pub fn turn_at(&self, pc: u32) -> TurnKind
        ensures kind { result ≡ kind_of_turn self.now.regions self.now.entered pc }
        ensures place { EntersOneOf self.now.regions result }
    {
        match self.entered {
            Some(place) => turn_inside(listed(&self.regions, place), pc),
            None => turn_outside(self.regions.items.as_slice(), pc),
        }
    }

    /// The place of the entered region in the list, counted from 0; None where none is entered.
    pub fn entered(&self) -> Option<u32>
        ensures { result ≡ self.now.entered }
    {
        self.entered
    }

    /// Enters the region at a place in the list. It is refused where a range of the region is not inside guest memory,
    /// whose lowest address is the base; then nothing is entered.
    pub fn enter(&mut self, place: u32, registers: &Registers, base: u32) -> Result<(), Break>
        requires outside { self.old.entered ≡ None }
        requires place { place < length self.old.regions }
        ensures answer { result ≡ entry_answer self.old place registers.now base }
        ensures ok { OnOk result (self.new ≡ after_entry self.old place registers.now) }
        ensures err { OnErr result (self.new ≡ self.old) }
    {
        let region = listed(&self.regions, place);
        refuse(broken_at_entry(region, registers, base))?;
        self.entered = Some(place);
        self.last = place;
        self.registers = *registers;
        Ok(())
    }

    /// Whether the instruction at an address may write a register: Err where a region is entered that does not declare
    /// it. A write to x0 is none.
    pub fn may_write_reg(&self, pc: u32, register: u8) -> Result<(), Break>
        ensures { result ≡ break_of self.now (λ region. register_break region pc register) }
    {
        match self.entered {
            Some(place) => refuse(written_register(listed(&self.regions, place), pc, register)),
            None => Ok(()),
        }
    }

    /// Whether the instruction at an address may write a byte: Err where a region is entered none of whose ranges has
    /// it.
    pub fn may_write_byte(&self, pc: u32, address: u32) -> Result<(), Break>
        ensures { result ≡ break_of self.now (λ region. byte_break region self.now.registers pc address) }
    {
        match self.entered {
            Some(place) => refuse(written_byte(
                listed(&self.regions, place),
                &self.registers,
                pc,
                address,
            )),
            None => Ok(()),
        }
    }

    /// Whether the instruction at an address may be a call: Err where a region is entered.
    pub fn may_call(&self, pc: u32) -> Result<(), Break>
        ensures { result ≡ break_of self.now (λ region. call_break region pc) }
    {
        match self.entered {
            Some(place) => Err(Break::CallInRegion {
                region: listed(&self.regions, place).id,
                pc,
            }),
            None => Ok(()),
        }
    }

    /// Leaves the entered region. It is refused where a kept register has not its value at the entry; then the region
    /// stays entered.
    pub fn leave(&mut self, registers: &Registers) -> Result<(), Break>
        requires { IsSome self.old.entered }
        ensures answer { result ≡ break_of self.old (λ region. keep_break region self.old.registers registers.now) }
        ensures ok { OnOk result (self.new ≡ after_leave self.old) }
        ensures err { OnErr result (self.new ≡ self.old) }
    {
        if let Some(place) = self.entered {
            let region = listed(&self.regions, place);
            refuse(broken_at_leave(region, &self.registers, registers))?;
        }
        self.entered = None;
        Ok(())
    }

    /// The registers at the last entry; all 0 before the first.
    pub fn entry_registers(&self) -> &Registers
        ensures { result.now ≡ self.now.registers }
    {
        &self.registers
    }

    /// Where a range of the region that was entered last starts, counted from 0: the value of its base register at the
    /// entry, if it has one, plus its offset, modulo 2^32.
    pub fn range_start(&self, range: u32) -> u32
        requires { IsSome (last_start self.now range) }
        ensures { Some result ≡ last_start self.now range }
    {
        let region = listed(&self.regions, self.last);
        range_start(
            &self.registers,
            listed_range(region.ranges.as_slice(), range),
        )
    }
}

// The region at a place.
fn listed(regions: &Regions, place: u32) -> &Region
    requires { place < length regions.now.items }
    ensures listed { Some result.now ≡ slice_get regions.now.items place }
    ensures rules { IsTrue (is_region result.now) }
{
    &regions.items.as_slice()[place as usize]
}

// The range at a place.
fn listed_range(ranges: &[Range], place: u32) -> Range
    requires rules { IsTrue (list_all is_range ranges.now) }
    requires place { place < length ranges.now }
    ensures listed { Some result ≡ slice_get ranges.now place }
    ensures rules { IsTrue (is_range result) }
{
    ranges[place as usize]
}

// Refused where there is a break.
fn refuse(fault: Option<Break>) -> Result<(), Break>
    ensures { result ≡ unless_break fault }
{
    match fault {
        Some(fault) => Err(fault),
        None => Ok(()),
    }
}
