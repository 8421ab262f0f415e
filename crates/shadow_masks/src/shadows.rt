ghost use Rattle.std.specs.Prelude.{◌≡◌, ◌+◌, ◌^◌, ◌<◌, ◌≤◌, ◌≢◌, All, IfOk, OnOk, OnErr, IsTrue, List as Seq, [], ◌∷◌};
ghost use Rattle.std.specs.Prelude.{length, vec_len};
ghost use Rattle.std.specs.Prelude.{replicate, ℕ, None, true};
ghost use Rattle.shadow_masks.specs.Labels.{clean, IsLabel, IsByteLabel};
ghost use Rattle.shadow_masks.specs.Pages.{label_from, labels_from, AreClean};
ghost use Rattle.flow_base.specs.Guests.{is_inside, memory_size};
ghost use Rattle.shadow_masks.specs.Shades.{register_label, byte_label, page_at, IsNew};
ghost use Rattle.shadow_masks.specs.Shades.{SetsRegister, SetsByte, SetsLabels, SetsRange, SetsFirstPart};
ghost use Rattle.shadow_masks.specs.Shades.{SetsFirstLabels, Saves};
ghost use Rattle.shadow_masks.specs.Shades.{Restores};

use crate::labels::Label;
use crate::page_slots::{is_clean_in, labels_in, listed, set_all_in, set_in};
use crate::pages::Page;
use flow_base::{List, NoMemory};
use std::alloc::Global;
use std::marker::Model;

/// The labels of the 32 registers and of all bytes of guest memory, and a kept copy of the register labels. Where
/// nothing was set a label is clean, and the label of x0 is always clean. The bytes stand in 4,096 pages; one is made
/// at the first label in it whose mask is not 0.
#[derive(Drop)]
pub struct Shadow {
    pub(crate) registers: [Label; 32],
    pub(crate) kept: [Label; 32],
    pub(crate) base: u32,
    pub(crate) pages: Vec<Option<Page>>,
    /// Whether a label of each page was set: a small table, so that all pages are soon looked over.
    pub(crate) set: Vec<bool>,
    pub(crate) alloc: Global,
}

impl Model for Shadow {
    ghost use Rattle.std.specs.Prelude.{◌≡◌, ◌+◌, ◌^◌, ◌≤◌, length, vec_len};
    ghost use Rattle.shadow_masks.specs.Labels.{AreRegisterLabels};
    ghost use Rattle.flow_base.specs.Guests.{memory_size};
    ghost use Rattle.shadow_masks.specs.Shades.{AreUnmade, Shades};

    ghost Value = { Shades };

    ghost view = { λ s. record { registers = s.registers; kept = s.kept; base = s.base; pages = s.pages.items } };

    ghost invariant = { λ s. AreRegisterLabels s.registers × AreRegisterLabels s.kept
        × (length s.pages.items ≡ 4096) × (s.base + memory_size ≤ 2 ^ 32)
        × (vec_len s.set ≡ 4096) × AreUnmade s.set.items s.pages.items };
}

/// The clean label for each register.
pub(crate) fn clean_labels() -> [Label; 32]
    ensures { result ≡ replicate 32 clean }
{
    [Label::clean(); 32]
}

/// So many pages that were not made.
fn no_pages(alloc: Global, count: usize) -> Result<Vec<Option<Page>>, NoMemory>
    ensures length { IfOk result (λ pages. length pages.items ≡ count) }
    ensures none { IfOk result (λ pages. (number : ℕ) → page_at pages.items number ≡ None) }
{
    let mut pages = Vec::new(alloc);
    for _ in 0..count {
        match pages.push(None) {
            Ok(()) => {}
            Err(_) => return Err(NoMemory),
        }
    }
    Ok(pages)
}

/// For each of so many pages, that none of its labels was set.
fn none_set(alloc: Global, count: usize) -> Result<Vec<bool>, NoMemory>
    ensures { IfOk result (λ set. vec_len set ≡ count) }
{
    Ok(vec![in alloc; false; count]?)
}

/// Gives back each page that was made.
fn give_back_pages(pages: &mut Vec<Option<Page>>)
    ensures length { length pages.new.items ≡ length pages.old.items }
    ensures none { (number : ℕ) → page_at pages.new.items number ≡ None }
{
    for number in 0..pages.len() {
        if pages[number].is_some() {
            pages[number] = None;
        }
    }
}

impl Shadow {
    /// All labels clean, those that are kept too, of a guest whose memory begins at an address and ends at 2^32 or
    /// below. Its error is lack of memory.
    pub fn new(alloc: Global, base: u32) -> Result<Shadow, NoMemory>
        requires { base + memory_size ≤ 2 ^ 32 }
        ensures { IfOk result (λ shadow. IsNew base shadow) }
    {
        Ok(Shadow {
            registers: clean_labels(),
            kept: clean_labels(),
            base,
            pages: no_pages(alloc, 4096)?,
            set: none_set(alloc, 4096)?,
            alloc,
        })
    }

    /// The same in the place of another, whose pages are given back. It takes no memory, and no more time than a look
    /// at the place of each page and the pages that were made.
    pub fn new_in(place: Shadow, base: u32) -> Shadow
        requires { base + memory_size ≤ 2 ^ 32 }
        ensures { IsNew base result }
    {
        let Shadow {
            pages,
            set,
            alloc,
            ..
        } = place;
        let mut pages = pages;
        let mut set = set;
        give_back_pages(&mut pages);
        set.fill(false);
        Shadow {
            registers: clean_labels(),
            kept: clean_labels(),
            base,
            pages,
            set,
            alloc,
        }
    }

    /// Whether each of `count` bytes from an address on is one of guest memory; no bytes are inside anywhere.
    pub fn is_inside(&self, address: u32, count: u32) -> bool
        ensures { result ≡ is_inside self.now.base address count }
    {
        flow_base::is_inside(self.base, address, count)
    }

    /// The label of a register, 0 to 31.
    pub fn reg(&self, register: u8) -> Label
        requires { register < 32 }
        ensures label { result ≡ register_label self.now register }
        ensures is_label { IsLabel result }
        ensures zero { register ≡ 0 → result ≡ clean }
    {
        self.registers[register as usize]
    }

    /// The label of the byte at an address of memory.
    pub fn byte(&self, address: u32) -> Label
        requires { IsTrue (is_inside self.now.base address 1) }
        ensures label { result ≡ byte_label self.now address }
        ensures is_of_byte { IsByteLabel result }
    {
        let place = (address - self.base) as usize;
        match &self.pages[place / 4096] {
            Some(page) => page.label(place % 4096),
            None => Label::clean(),
        }
    }

    /// The labels of `count` bytes of memory from an address on, 1 to 4, as those of a load; past them the clean
    /// label.
    pub fn bytes(&self, address: u32, count: u32) -> [Label; 4]
        requires inside { IsTrue (is_inside self.now.base address count) }
        requires some { 0 < count }
        requires few { count ≤ 4 }
        ensures labels { result ≡ labels_from (byte_label self.now) address count }
        ensures are_of_bytes { All IsByteLabel result }
    {
        let first = (address - self.base) as usize;
        let place = first % 4096;
        if place + count as usize > 4096 {
            return self.bytes_apart(address, count);
        }
        labels_in(self.page(first / 4096), place, count as usize)
    }

    fn page(&self, number: usize) -> &Option<Page>
        requires { number < 4096 }
        ensures { result.now ≡ page_at self.now.pages number }
    {
        &self.pages[number]
    }

    /// The same, byte by byte.
    fn bytes_apart(&self, address: u32, count: u32) -> [Label; 4]
        requires inside { IsTrue (is_inside self.now.base address count) }
        ensures labels { result ≡ labels_from (byte_label self.now) address count }
        ensures are_of_bytes { All IsByteLabel result }
    {
        [
            self.byte_of(address, 0, count),
            self.byte_of(address, 1, count),
            self.byte_of(address, 2, count),
            self.byte_of(address, 3, count),
        ]
    }

    fn byte_of(&self, address: u32, offset: u32, count: u32) -> Label
        requires inside { IsTrue (is_inside self.now.base address count) }
        ensures label { result ≡ label_from (byte_label self.now) address count offset }
        ensures is_of_byte { IsByteLabel result }
    {
        if offset < count {
            self.byte(address + offset)
        } else {
            Label::clean()
        }
    }

    /// Sets the label of a register, 0 to 31; that of register 0 stays clean.
    pub fn set_reg(&mut self, register: u8, label: Label)
        requires register { register < 32 }
        requires label { IsLabel label }
        ensures { SetsRegister register label self.old self.new }
    {
        if register != 0 {
            self.registers[register as usize] = label;
        }
    }

    /// Sets the label of the byte at an address of memory; where memory of the host is short all stays as it was. A label
    /// that the byte has takes no memory.
    #[tactic(auto, using(crate::proofs::LaidMasks::set_unmade))]
    pub fn set_byte(&mut self, address: u32, label: Label) -> Result<(), NoMemory>
        requires inside { IsTrue (is_inside self.old.base address 1) }
        requires label { IsByteLabel label }
        ensures ok { OnOk result (SetsByte address label self.old self.new) }
        ensures err { OnErr result (self.new ≡ self.old) }
        ensures other { OnErr result (byte_label self.old address ≢ label) }
    {
        let place = (address - self.base) as usize;
        let alloc = self.alloc;
        self.set[place / 4096] = true;
        set_in(&mut self.pages[place / 4096], alloc, place % 4096, label)
    }

    /// Sets the labels of `length` bytes from an address on; where memory of the host is short only a first part of
    /// them is set. Labels that the bytes have take no memory.
    pub fn set_range(&mut self, address: u32, length: u32, label: Label) -> Result<(), NoMemory>
        requires range { IsTrue (is_inside self.old.base address length) }
        requires label { IsByteLabel label }
        ensures ok { OnOk result (SetsRange address length label self.old self.new) }
        ensures err { OnErr result (SetsFirstPart address length (λ offset. label) self.old self.new) }
    {
        for offset in 0..length {
            self.set_byte(address + offset, label)?;
        }
        Ok(())
    }

    /// Sets the labels of bytes of memory from an address on, as those of a store, each to the next of the list; where
    /// memory of the host is short only a first part of them is set. Labels that the bytes have take no memory.
    #[tactic(auto, using(crate::proofs::LaidMasks::set_unmade))]
    pub fn set_bytes(&mut self, address: u32, labels: &[Label]) -> Result<(), NoMemory>
        requires inside { IsTrue (is_inside self.old.base address (length labels.now)) }
        requires some { 0 < length labels.now }
        requires labels { All IsByteLabel labels.now }
        ensures ok { OnOk result (SetsLabels address labels.now self.old self.new) }
        ensures err { OnErr result (SetsFirstLabels address labels.now self.old self.new) }
    {
        let first = (address - self.base) as usize;
        if first % 4096 + labels.len() > 4096 {
            return self.set_bytes_apart(address, labels);
        }
        let alloc = self.alloc;
        self.set[first / 4096] = true;
        set_all_in(&mut self.pages[first / 4096], alloc, first % 4096, labels)?;
        Ok(())
    }

    /// The same, byte by byte.
    fn set_bytes_apart(&mut self, address: u32, labels: &[Label]) -> Result<(), NoMemory>
        requires inside { IsTrue (is_inside self.old.base address (length labels.now)) }
        requires labels { All IsByteLabel labels.now }
        ensures ok { OnOk result (SetsLabels address labels.now self.old self.new) }
        ensures err { OnErr result (SetsFirstLabels address labels.now self.old self.new) }
    {
        for offset in 0..labels.len() {
            self.set_byte(address + offset as u32, listed(labels, offset))?;
        }
        Ok(())
    }

    /// Whether each of `length` bytes of memory from an address on is clean. It looks once at a page that holds them
    /// all, and at nothing but its place in the table where the page was never made.
    pub fn is_clean(&self, address: u32, length: u32) -> bool
        requires { IsTrue (is_inside self.now.base address length) }
        ensures yes { result ≡ true → AreClean (byte_label self.now) address length }
        ensures no { AreClean (byte_label self.now) address length → result ≡ true }
    {
        if length == 0 {
            return true;
        }
        let first = (address - self.base) as usize;
        if first % 4096 + length as usize > 4096 {
            return self.is_clean_apart(address, length);
        }
        is_clean_in(self.page(first / 4096), first % 4096, length as usize)
    }

    /// The same, byte by byte.
    fn is_clean_apart(&self, address: u32, length: u32) -> bool
        requires { IsTrue (is_inside self.now.base address length) }
        ensures yes { result ≡ true → AreClean (byte_label self.now) address length }
        ensures no { AreClean (byte_label self.now) address length → result ≡ true }
    {
        for offset in 0..length {
            if self.byte(address + offset).mask != 0 {
                return false;
            }
        }
        true
    }

    /// Keeps the labels of all registers.
    pub fn save(&mut self)
        ensures { Saves self.old self.new }
    {
        self.kept = self.registers;
    }

    /// Gives the listed registers, each 0 to 31, the labels that were kept last; at first these are clean.
    pub fn restore(&mut self, registers: &List<u8>)
        requires { All (λ register. register < 32) registers.now }
        ensures { Restores registers.now self.old self.new }
    {
        self.restore_each(registers.as_slice());
    }

    /// The same of a slice of registers.
    pub fn restore_each(&mut self, registers: &[u8])
        requires { All (λ register. register < 32) registers.now }
        ensures { Restores registers.now self.old self.new }
    {
        for register in registers {
            self.give_back(*register);
        }
    }

    /// Gives one register the label that was kept.
    fn give_back(&mut self, register: u8)
        requires { register < 32 }
        ensures { Restores (register ∷ []) self.old self.new }
    {
        self.registers[register as usize] = self.kept[register as usize];
    }
}
