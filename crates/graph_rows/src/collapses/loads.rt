use flow_base::{Point, Slot};
use flow_graph::{Event, Graph};
use location_collapse::{Collapse, CollapseFault};
use std::alloc::Global;

/// So many events over so many points and links.
#[derive(Clone, Copy)]
pub struct Load {
    pub points: u32,
    pub links: u32,
    pub events: u32,
}

/// The next of a row of numbers that look random: a linear congruential generator of 64 bits.
pub fn next(state: u64) -> u64 {
    state
        .wrapping_mul(6_364_136_223_846_793_005)
        .wrapping_add(1_442_695_040_888_963_407)
}

/// A number below `bound`, or 0, by the upper bits of a state.
pub fn below(state: u64, bound: u32) -> u32 {
    (((state >> 32) * u64::from(bound)) >> 32) as u32
}

impl Load {
    /// The point with a number.
    pub fn point(&self, number: u32) -> Point {
        let slot = match number % 4 {
            0 => Slot::First,
            1 => Slot::Second,
            2 => Slot::Address,
            _ => Slot::Result,
        };
        Point {
            region: 0,
            address: 0x10000 + number / 4 % 4_194_304 * 4,
            slot,
        }
    }

    /// The link with a number. Links of different numbers are different ones, as long as they are at most as many as the
    /// pairs of points.
    pub fn link(&self, number: u32) -> Event {
        let points = self.points.max(1);
        let source = number % points;
        let target = (u64::from(source) + u64::from(number / points)) % u64::from(points);
        Event::Link {
            source: self.point(source),
            target: self.point(target as u32),
        }
    }

    /// The point with a number is passed.
    pub fn pass(&self, number: u32) -> Event {
        Event::Pass {
            point: self.point(number),
            mask: 1,
        }
    }

    /// Adds all points and links.
    fn add_known(&self, collapse: &mut Collapse) -> Result<(), CollapseFault> {
        for number in 0..self.points {
            collapse.add(self.pass(number))?;
        }
        for number in 0..self.links {
            collapse.add(self.link(number))?;
        }
        Ok(())
    }

    /// Adds so many events more, which pass these points and make these links in turn.
    fn add_events(&self, collapse: &mut Collapse) -> Result<(), CollapseFault> {
        let mut state = 1;
        for number in 0..self.events {
            state = next(state);
            let event = if number % 2 == 0 {
                self.pass(below(state, self.points))
            } else {
                self.link(below(state, self.links))
            };
            collapse.add(event)?;
        }
        Ok(())
    }

    /// A collapse of all points and links.
    pub fn start(&self, alloc: Global) -> Result<Collapse, CollapseFault> {
        let Ok(mut collapse) = Collapse::new(alloc) else {
            return Err(CollapseFault::Memory);
        };
        self.add_known(&mut collapse)?;
        Ok(collapse)
    }

    /// The graph of all points and links, and of these events more.
    pub fn graph(&self, alloc: Global) -> Result<Graph, CollapseFault> {
        let mut collapse = self.start(alloc)?;
        self.add_events(&mut collapse)?;
        match collapse.finish(alloc) {
            Ok(graph) => Ok(graph),
            Err(_) => Err(CollapseFault::Memory),
        }
    }
}
