ghost use Rattle.std.specs.Prelude.{◌≡◌, ◌≢◌, ◌⊎◌, ◌+◌, ◌≤◌, ◌<◌, ◌^◌, [], cond, length, true, IsTrue, None, Some, OnOk, OnErr, Err};
ghost use Rattle.std.specs.List.{list_all};
ghost use Rattle.indexmap.specs.IndexMap.{set_value_at};
ghost use Rattle.flow_base.specs.declared.points.Point.{Point as ThePoint};
ghost use Rattle.flow_base.specs.Words.{bit_count};
ghost use Rattle.flow_base.specs.PointOrders.{is_same};
ghost use Rattle.flow_graph.specs.Keeping.{capacity_in, count_in, is_known};
ghost use Rattle.hinted_map.specs.Maps.{StandsAt};
ghost use Rattle.location_collapse.specs.Limits.{HasAllPoints, LacksRoom, WantsPoint, is_kept_capacity};

use crate::faults::CollapseFault;
use flow_base::{NoMemory, Point};
use hinted_map::HintedMap;
use std::alloc::Global;

/// How many points a graph may have.
const MAX_POINTS: usize = 65_536;

/// The capacities of a graph are below this, in bits.
const CAPACITY_LIMIT: u64 = 1 << 48;

/// The points that have passed a mask other than 0, in the order in which they were first seen, each with its capacity
/// in bits. They are at most 65,536, and capacities are below 2^48.
#[derive(Drop)]
pub struct KeptPoints {
    pub capacities: HintedMap<Point, u64>,
    ghost small: { IsTrue (list_all is_kept_capacity capacities.map.entries) },
    ghost few: { length capacities.map.entries ≤ 65536 },
}

impl KeptPoints {
    /// No points.
    pub fn new(alloc: Global) -> KeptPoints
        ensures { result.capacities.map.entries ≡ [] }
    {
        KeptPoints {
            capacities: HintedMap::new(alloc),
        }
    }

    /// Whether the point has passed a mask other than 0.
    pub fn has(&self, point: &Point) -> bool
        ensures { result ≡ is_known self.now.capacities.map.entries point.now }
    {
        self.capacities.contains(point)
    }

    /// Keeps a point that was not seen before, unless there are 65,536 points already.
    #[inline(never)]
    fn start(&mut self, point: Point, bits: u64) -> Result<(), CollapseFault>
        requires unknown { capacity_in self.old.capacities.map.entries point ≡ None }
        requires some { 0 < bits }
        requires small { bits < 2 ^ 48 }
        ensures ok { OnOk result ((q : ThePoint) → capacity_in self.new.capacities.map.entries q ≡ cond (is_same point q)
            (Some bits) (capacity_in self.old.capacities.map.entries q)) }
        ensures err { OnErr result (self.new.capacities.map.entries ≡ self.old.capacities.map.entries) }
        ensures full { result ≡ Err CollapseFault.Limit → HasAllPoints self.old.capacities.map.entries }
        ensures latest { self.new.capacities.latest ≡ self.old.capacities.latest }
    {
        if self.capacities.len() >= MAX_POINTS {
            return Err(CollapseFault::Limit);
        }
        match self.capacities.add(point, bits) {
            Ok(_) => Ok(()),
            Err(NoMemory) => Err(CollapseFault::Memory),
        }
    }

    /// Writes the capacity of the point at an index, unless it is 2^48 or more.
    #[inline(always)]
    fn raise(&mut self, index: usize, capacity: u64) -> Result<(), CollapseFault>
        requires within { index < length self.old.capacities.map.entries }
        requires some { 0 < capacity }
        ensures ok { OnOk result (self.new.capacities.map.entries ≡ set_value_at self.old.capacities.map.entries index
            capacity) }
        ensures err { OnErr result (self.new.capacities.map.entries ≡ self.old.capacities.map.entries) }
        ensures large { result ≡ Err CollapseFault.Limit → 2 ^ 48 ≤ capacity }
        ensures memory { result ≢ Err CollapseFault.Memory }
        ensures latest { (self.new.capacities.latest ≡ self.old.capacities.latest) ⊎
            (self.new.capacities.latest ≡ index) }
    {
        if capacity >= CAPACITY_LIMIT {
            return Err(CollapseFault::Limit);
        }
        self.capacities.map[index] = capacity;
        self.capacities.note(index);
        Ok(())
    }

    /// Adds the bits of a mask to a point's capacity. `Memory` comes only where the point is new.
    #[inline(always)]
    pub fn pass(&mut self, point: Point, mask: u32) -> Result<(), CollapseFault>
        ensures counted { OnOk result ((q : ThePoint) → count_in self.new.capacities.map.entries q ≡ count_in
            self.old.capacities.map.entries q + cond (is_same point q) (bit_count mask) 0) }
        ensures grows { OnOk result ((q : ThePoint) → is_known self.old.capacities.map.entries q ≡ true → is_known
            self.new.capacities.map.entries q ≡ true) }
        ensures err { OnErr result (self.new.capacities.map.entries ≡ self.old.capacities.map.entries) }
        ensures limit { result ≡ Err CollapseFault.Limit → LacksRoom self.old.capacities.map.entries point mask ⊎
            (2 ^ 48 ≤ count_in self.old.capacities.map.entries point + bit_count mask) }
        ensures memory { result ≡ Err CollapseFault.Memory → WantsPoint self.old.capacities.map.entries point mask }
        ensures latest { (self.new.capacities.latest ≡ self.old.capacities.latest) ⊎
            StandsAt is_same self.old.capacities.map.entries point self.new.capacities.latest }
    {
        if mask == 0 {
            return Ok(());
        }
        let bits = u64::from(mask.count_ones());
        match self.capacities.find(&point) {
            Some(index) => {
                let before = self.capacities.map[index];
                self.raise(index, before + bits)
            }
            None => self.start(point, bits),
        }
    }
}
