//! Rows of visits. A point is written REGION ADDRESS SLOT, with its address in hexadecimal.

use crate::input::hexadecimal;
use flow_base::{Point, Slot};
use measuring::VisitCounts;
use std::alloc::Global;

/// The visits that rows count.
#[derive(Drop)]
pub struct Visits {
    counts: VisitCounts,
}

/// The slot that a word names.
fn slot_of(word: &str) -> Option<Slot> {
    match word {
        "u1" => Some(Slot::First),
        "rs" => Some(Slot::Result),
        "x10" => Some(Slot::OutReg(10)),
        "r0" => Some(Slot::OutRange(0)),
        _ => None,
    }
}

/// The address and the slot of a text.
fn place_of(text: &str) -> Option<(u32, Slot)> {
    match text.split_once(' ') {
        Some((address, slot)) => hexadecimal(address).zip(slot_of(slot)),
        None => None,
    }
}

/// The point of a row.
fn point_of(row: &str) -> Option<Point> {
    let (region, rest) = row.split_once(' ')?;
    let region = region.parse::<u16>().ok()?;
    let (address, slot) = place_of(rest)?;
    Some(Point {
        region,
        address,
        slot,
    })
}

impl Visits {
    /// No visits.
    pub fn new(alloc: Global) -> Visits {
        Visits {
            counts: VisitCounts::new(alloc),
        }
    }

    /// Counts a visit, and prints whether it is counted.
    fn visit(&mut self, rt: &HostRuntime, point: &Point) -> bool {
        match self.counts.more(point) {
            Ok(true) => println!(rt; "counted").is_ok(),
            Ok(false) => println!(rt; "not counted").is_ok(),
            Err(_) => false,
        }
    }

    /// Forgets the visits of a point, and prints how many they were.
    fn clear(&mut self, rt: &HostRuntime, point: &Point) -> bool {
        match self.counts.clear(point) {
            Ok(count) => println!(rt; "cleared {count}").is_ok(),
            Err(_) => false,
        }
    }

    /// Prints the answer of a row; whether it is one of these rows, is printed, and memory is not short.
    pub fn print(&mut self, rt: &HostRuntime, name: &str, row: &str) -> bool {
        let Some(point) = point_of(row) else {
            return false;
        };
        match name {
            "visit" => self.visit(rt, &point),
            "clear" => self.clear(rt, &point),
            "visits" => println!(rt; "visits {}", self.counts.count(&point)).is_ok(),
            _ => false,
        }
    }
}
