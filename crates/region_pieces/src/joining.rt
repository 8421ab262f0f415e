ghost use Rattle.std.specs.Prelude.{◌≡◌, ◌<◌, IfOk, length, vec_len};

use crate::entries::Entry;
use crate::memories::{Memory, Written, entry_page, shared};
use crate::pages::Page;
use crate::pieces::Piece;
use crate::vectors::push;
use flow_base::NoMemory;
use piece_cells::{Cell, Unknowns, bits_of, cover, same_table};
use std::alloc::Global;
use std::rc::Rc;

/// What is known of the unknown bytes of two pieces, or of two endings.
#[derive(Clone, Copy)]
pub(crate) struct Both<'a> {
    pub first: &'a Unknowns,
    pub second: &'a Unknowns,
}

/// A table that both have, or else bits that cover both.
pub(crate) fn joined_cell(first: &Cell, second: &Cell, both: Both<'_>) -> Result<Cell, NoMemory> {
    if same_table(first, second) {
        return Ok(first.clone()?);
    }
    Ok(Cell::Bits(cover(bits_of(first, both.first), bits_of(second, both.second))))
}

/// The same for cells in order.
pub(crate) fn joined_cells(
    alloc: Global,
    first: &[Cell],
    second: &[Cell],
    both: Both<'_>,
) -> Result<Vec<Cell>, NoMemory>
    requires { length first.now ≡ length second.now }
    ensures { IfOk result (λ cells. vec_len cells ≡ length first.now) }
{
    let mut cells = Vec::with_capacity(alloc, first.len())?;
    for at in 0..first.len() {
        push(&mut cells, joined_cell(&first[at], &second[at], both)?)?;
    }
    Ok(cells)
}

/// The bytes of a page, each covering both.
fn joined_page(
    alloc: Global,
    first: &Page,
    second: &Page,
    both: Both<'_>,
) -> Result<Page, NoMemory> {
    let mut page = first.copied(alloc)?;
    for place in 0..64usize {
        if first.is_plain_at(place) && second.is_plain_at(place) {
            page.set_bits(place, cover(first.bits(place), second.bits(place)));
        } else {
            let cell = joined_cell(&first.cell(place)?, &second.cell(place)?, both)?;
            page.set(alloc, place, cell)?;
        }
    }
    Ok(page)
}

/// The same of a page of the first and that of the second, which is as at the entry where it was not written.
fn joined_written(
    alloc: Global,
    entry: &Entry<'_>,
    written: &Written,
    second: Option<&Page>,
    both: Both<'_>,
) -> Result<Rc<Page>, NoMemory> {
    match second {
        Some(page) if written.page.is_same(page) => Ok(written.page.clone()?),
        Some(page) => shared(alloc, joined_page(alloc, &written.page, page, both)?),
        None => {
            let page = entry_page(alloc, entry, written.number);
            shared(alloc, joined_page(alloc, &written.page, &page, both)?)
        }
    }
}

/// Memory whose bytes cover those of both.
fn joined_memory(
    alloc: Global,
    entry: &Entry<'_>,
    first: &Memory,
    second: &Memory,
    both: Both<'_>,
) -> Result<Memory, NoMemory> {
    let mut pages = Vec::with_capacity(alloc, first.pages.len())?;
    for written in first.pages.as_slice() {
        let number = written.number;
        let page = joined_written(alloc, entry, written, second.page(number), both)?;
        push(&mut pages, Written { number, page })?;
    }
    let mut memory = Memory { pages };
    for written in second.pages.as_slice() {
        let number = written.number;
        if first.page(number).is_none() {
            let page = entry_page(alloc, entry, number);
            let page = joined_page(alloc, &page, &written.page, both)?;
            memory.put(Written {
                number,
                page: shared(alloc, page)?,
            })?;
        }
    }
    Ok(memory)
}

/// A piece that stands for all that each of two pieces at the same place stands for.
pub(crate) fn join(
    alloc: Global,
    entry: &Entry<'_>,
    first: &Piece,
    second: &Piece,
) -> Result<Piece, NoMemory> {
    let both = Both {
        first: &first.unknowns,
        second: &second.unknowns,
    };
    Ok(Piece {
        registers: joined_cells(
            alloc,
            first.registers.as_slice(),
            second.registers.as_slice(),
            both,
        )?,
        memory: joined_memory(alloc, entry, &first.memory, &second.memory, both)?,
        unknowns: first.unknowns.joined(alloc, &second.unknowns)?,
        pc: first.pc,
        turns: if first.turns < second.turns {
            second.turns
        } else {
            first.turns
        },
    })
}
