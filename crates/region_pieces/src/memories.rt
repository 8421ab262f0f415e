ghost use Rattle.std.specs.Prelude.{◌≡◌, ◌+◌, ◌*◌, ◌<◌, ◌≤◌, IsTrue, vec_len};
ghost use Rattle.flow_base.specs.Guests.{is_inside};

use crate::entries::Entry;
use crate::pages::{PAGE_SIZE, Page};
use crate::vectors::push;
use flow_base::NoMemory;
use piece_cells::{Bits, Cell, Unknowns};
use std::alloc::Global;
use std::rc::Rc;

/// A page that a piece wrote, and its number, counted from the lowest address of guest memory.
#[derive(Drop)]
pub(crate) struct Written {
    pub number: u32,
    pub page: Rc<Page>,
    ghost within: { number < 262144 },
}

/// Guest memory of a piece: the pages that it wrote, by ascending number, each shared with the pieces that have it from
/// the same piece. All other bytes are as at the entry.
#[derive(Drop)]
pub(crate) struct Memory {
    pub pages: Vec<Written>,
}

/// The bits of a byte at the entry.
#[inline(always)]
pub(crate) fn entry_bits(entry: &Entry<'_>, address: u32) -> Bits
    requires { IsTrue (is_inside entry.now.machine.now.setting.base address 1) }
{
    Bits {
        value: u32::from(entry.machine.byte(address)),
        mask: entry.shadow.byte(address).mask,
    }
}

/// The same of any address; one that is not inside guest memory has no known bit.
fn bits_if_inside(entry: &Entry<'_>, address: u32) -> Bits {
    if flow_base::is_inside(entry.machine.base(), address, 1) {
        entry_bits(entry, address)
    } else {
        Bits {
            value: 0,
            mask: 0xff,
        }
    }
}

/// A page as it is at the entry.
pub(crate) fn entry_page(alloc: Global, entry: &Entry<'_>, number: u32) -> Page
    requires { number < 262144 }
{
    let from = entry.machine.base().wrapping_add(number * PAGE_SIZE);
    let mut values = [0; 64];
    let mut masks = [0; 64];
    for place in 0..64usize {
        let bits = bits_if_inside(entry, from.wrapping_add(place as u32));
        values[place] = (bits.value & 0xff) as u8;
        masks[place] = (bits.mask & 0xff) as u8;
    }
    Page::new(alloc, values, masks)
}

/// The number of the page that has the byte at an address of guest memory, and the byte's place in it.
#[inline(always)]
fn place_of(entry: &Entry<'_>, address: u32) -> (u32, usize)
    requires { IsTrue (is_inside entry.now.machine.now.setting.base address 1) }
    ensures number { result.0 < 262144 }
    ensures place { result.1 < 64 }
    ensures address { entry.now.machine.now.setting.base + (64 * result.0 + result.1) ≡ address }
{
    let index = address - entry.machine.base();
    (index / PAGE_SIZE, (index % PAGE_SIZE) as usize)
}

impl Memory {
    /// Memory as at the entry.
    pub fn new(alloc: Global) -> Memory {
        Memory {
            pages: Vec::new(alloc),
        }
    }

    /// The same once more, with the same pages.
    pub fn copied(&self, alloc: Global) -> Result<Memory, NoMemory> {
        let mut pages = Vec::with_capacity(alloc, self.pages.len())?;
        for written in &self.pages {
            push(
                &mut pages,
                Written {
                    number: written.number,
                    page: written.page.clone()?,
                },
            )?;
        }
        Ok(Memory { pages })
    }

    /// How many pages have a lower number.
    #[inline(always)]
    fn count_below(&self, number: u32) -> usize
        ensures { result ≤ vec_len self.now.pages }
    {
        let mut low = 0;
        let mut high = self.pages.len();
        while low < high {
            let middle = low + (high - low) / 2;
            if self.pages[middle].number < number {
                low = middle + 1;
            } else {
                high = middle;
            }
        }
        low
    }

    /// The page of a number, if it was written.
    #[inline(always)]
    pub fn page(&self, number: u32) -> Option<&Page> {
        let at = self.count_below(number);
        match self.pages.get(at) {
            Some(written) if written.number == number => Some(written.page.as_ref()),
            _ => None,
        }
    }

    /// The bits of the byte at an address; None where it is by table.
    #[inline(always)]
    pub fn plain(&self, entry: &Entry<'_>, address: u32) -> Option<Bits>
        requires { IsTrue (is_inside entry.now.machine.now.setting.base address 1) }
    {
        let (number, place) = place_of(entry, address);
        match self.page(number) {
            Some(page) => match page.table(place) {
                Some(_) => None,
                None => Some(page.bits(place)),
            },
            None => Some(entry_bits(entry, address)),
        }
    }

    /// Whether no byte of so many from an address on, at most 64, is in a page that was written.
    #[inline(always)]
    pub fn is_unwritten(&self, entry: &Entry<'_>, address: u32, count: u32) -> bool
        requires inside { IsTrue (is_inside entry.now.machine.now.setting.base address count) }
        requires some { 0 < count }
    {
        let (first, _) = place_of(entry, address);
        let (last, _) = place_of(entry, address + (count - 1));
        self.page(first).is_none() && (first == last || self.page(last).is_none())
    }

    /// The bits of the byte at an address.
    pub fn bits(&self, entry: &Entry<'_>, address: u32, unknowns: &Unknowns) -> Bits
        requires { IsTrue (is_inside entry.now.machine.now.setting.base address 1) }
    {
        let (number, place) = place_of(entry, address);
        match self.page(number) {
            Some(page) => page.bits_by(place, unknowns),
            None => entry_bits(entry, address),
        }
    }

    /// What the byte at an address is.
    pub fn cell(&self, entry: &Entry<'_>, address: u32) -> Result<Cell, NoMemory>
        requires { IsTrue (is_inside entry.now.machine.now.setting.base address 1) }
    {
        let (number, place) = place_of(entry, address);
        match self.page(number) {
            Some(page) => page.cell(place),
            None => Ok(Cell::Bits(entry_bits(entry, address))),
        }
    }

    /// Sets the byte at an address.
    #[inline(always)]
    pub fn set(
        &mut self,
        alloc: Global,
        entry: &Entry<'_>,
        address: u32,
        cell: Cell,
    ) -> Result<(), NoMemory>
        requires { IsTrue (is_inside entry.now.machine.now.setting.base address 1) }
    {
        let (number, place) = place_of(entry, address);
        let at = self.count_below(number);
        if at < self.pages.len() && self.pages[at].number == number {
            if let Some(page) = Rc::get_mut(&mut self.pages[at].page) {
                return page.set(alloc, place, cell);
            }
            let mut page = self.pages[at].page.copied(alloc)?;
            page.set(alloc, place, cell)?;
            self.pages[at].page = shared(alloc, page)?;
            return Ok(());
        }
        let mut page = entry_page(alloc, entry, number);
        page.set(alloc, place, cell)?;
        let page = shared(alloc, page)?;
        self.put(Written { number, page })
    }

    /// A page that was not written is written now.
    pub fn put(&mut self, written: Written) -> Result<(), NoMemory> {
        let at = self.count_below(written.number);
        match self.pages.insert(at, written) {
            Ok(()) => Ok(()),
            Err(_) => Err(NoMemory),
        }
    }
}

/// A page that can be shared.
pub(crate) fn shared(alloc: Global, page: Page) -> Result<Rc<Page>, NoMemory> {
    match Rc::new(alloc, page) {
        Ok(page) => Ok(page),
        Err(_) => Err(NoMemory),
    }
}
