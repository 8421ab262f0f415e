ghost use Rattle.std.specs.Prelude.{◌≡◌, ◌+◌, ◌<◌, ◌==◌, ◌&&◌, cond, length, nat_lt, None, ℕ, true, IfOk, OnErr, OnOk, IfSome, IfNone};
ghost use Rattle.std.specs.Map.{lookup};
ghost use Rattle.flow_base.specs.declared.points.Point.{Point as ThePoint};
ghost use Rattle.flow_base.specs.PointOrders.{is_same};
ghost use Rattle.hinted_map.specs.Maps.{StandsAt};
ghost use Rattle.measuring.specs.Counts.{Clears, CountsMore, WantsRow, count_at, count_of, has_room};
ghost use Rattle.measuring.specs.Counts.{is_counted as counts_there, page_of as the_page_of};

use crate::counter_places::{column_of, is_counted, lane_of, page_of};
use crate::counter_rows::Row;
use crate::visit_counts::VisitCounts;
use flow_base::{NoMemory, Point};
use hinted_map::HintedMap;
use std::alloc::Global;

impl VisitCounts {
    /// All counters are 0. It takes no memory.
    pub fn new(alloc: Global) -> VisitCounts
        ensures { (q : ThePoint) → count_of result q ≡ 0 }
    {
        VisitCounts {
            rows: HintedMap::new(alloc),
            latest: [0; 16],
            alloc,
        }
    }

    /// The index of the row of a page; None exactly where there is none.
    #[inline(always)]
    fn find(&self, page: &Point) -> Option<usize>
        ensures at { IfSome result (StandsAt is_same self.now.rows.map.entries page.now) }
        ensures none { IfNone result (lookup (is_same page.now) self.now.rows.map.entries ≡ None) }
    {
        self.rows.find_from(self.latest[lane_of(page.slot)], page)
    }

    /// A counter of the row at an index.
    #[inline(always)]
    fn value(&self, index: usize, column: usize) -> u32
        requires within { index < length self.now.rows.map.entries }
        requires column { column < 1024 }
        ensures { (page : ThePoint) → StandsAt is_same self.now.rows.map.entries page index →
            result ≡ count_at self.now.rows.map.entries page column }
    {
        self.rows.map[index].get(column)
    }

    /// Writes a counter of the row at an index.
    #[inline(always)]
    fn write(&mut self, index: usize, column: usize, count: u32)
        requires within { index < length self.old.rows.map.entries }
        requires column { column < 1024 }
        ensures { (page : ThePoint) → StandsAt is_same self.old.rows.map.entries page index → (q : ThePoint) (other : ℕ) →
            count_at self.new.rows.map.entries q other ≡ cond (is_same page q && (column == other)) count
            (count_at self.old.rows.map.entries q other) }
    {
        self.rows.map[index].set(column, count)
    }

    /// The index of the row of a page, which is made where there is none. Mostly it stands where the latest one of its
    /// slot does.
    #[inline(always)]
    fn row_of(&mut self, page: Point) -> Result<usize, NoMemory>
        ensures at { IfOk result (StandsAt is_same self.new.rows.map.entries page) }
        ensures counts { OnOk result ((q : ThePoint) (column : ℕ) →
            count_at self.new.rows.map.entries q column ≡ count_at self.old.rows.map.entries q column) }
        ensures memory { OnErr result (lookup (is_same page) self.old.rows.map.entries ≡ None) }
    {
        let hint = self.latest[lane_of(page.slot)];
        if self.rows.stands_at(hint, &page) {
            return Ok(hint);
        }
        self.row_elsewhere(page)
    }

    /// The same, wherever the row stands.
    #[inline(never)]
    fn row_elsewhere(&mut self, page: Point) -> Result<usize, NoMemory>
        ensures at { IfOk result (StandsAt is_same self.new.rows.map.entries page) }
        ensures counts { OnOk result ((q : ThePoint) (column : ℕ) →
            count_at self.new.rows.map.entries q column ≡ count_at self.old.rows.map.entries q column) }
        ensures memory { OnErr result (lookup (is_same page) self.old.rows.map.entries ≡ None) }
    {
        match self.find(&page) {
            Some(index) => {
                self.latest[lane_of(page.slot)] = index;
                Ok(index)
            }
            None => self.start(page),
        }
    }

    /// Makes the row of a page that has none, and gives its index.
    #[inline(never)]
    fn start(&mut self, page: Point) -> Result<usize, NoMemory>
        requires { lookup (is_same page) self.old.rows.map.entries ≡ None }
        ensures at { IfOk result (StandsAt is_same self.new.rows.map.entries page) }
        ensures counts { OnOk result ((q : ThePoint) (column : ℕ) →
            count_at self.new.rows.map.entries q column ≡ count_at self.old.rows.map.entries q column) }
    {
        let row = Row::new(self.alloc)?;
        let index = self.rows.add(page, row)?;
        self.latest[lane_of(page.slot)] = index;
        Ok(index)
    }

    /// One visit more of a point whose row stands at an index; false where its counter is at its end.
    #[inline(always)]
    fn raise(&mut self, index: usize, point: &Point) -> bool
        requires counted { counts_there point.now ≡ true }
        requires row { StandsAt is_same self.old.rows.map.entries (the_page_of point.now) index }
        ensures more { CountsMore self.old self.new point.now (cond result 1 0) }
        ensures told { result ≡ nat_lt (count_of self.old point.now) 4294967295 }
    {
        let column = column_of(point);
        match self.value(index, column).checked_add(1) {
            Some(count) => {
                self.write(index, column, count);
                true
            }
            None => false,
        }
    }

    /// One visit more of a point. False exactly where it is not counted: it is an output of a region, its address is no
    /// multiple of 4, or its counter is at its end, 2^32 - 1. Its error is lack of memory, and comes only where a row is
    /// made.
    #[inline(always)]
    pub fn more(&mut self, point: &Point) -> Result<bool, NoMemory>
        ensures more { IfOk result (λ done. CountsMore self.old self.new point.now (cond done 1 0)) }
        ensures told { IfOk result (λ done. done ≡ has_room self.old point.now) }
        ensures memory { OnErr result (WantsRow self.old point.now) }
    {
        if !is_counted(point) {
            return Ok(false);
        }
        let index = self.row_of(page_of(point))?;
        Ok(self.raise(index, point))
    }

    /// The counter of a point whose row stands at an index becomes 0. It gives what was counted.
    #[inline(always)]
    fn clear_at(&mut self, index: usize, point: &Point) -> u32
        requires counted { counts_there point.now ≡ true }
        requires row { StandsAt is_same self.old.rows.map.entries (the_page_of point.now) index }
        ensures counted { result ≡ count_of self.old point.now }
        ensures cleared { Clears self.old self.new point.now }
    {
        let column = column_of(point);
        let count = self.value(index, column);
        self.write(index, column, 0);
        count
    }

    /// The counter of a point becomes 0. It gives how often the point was counted. The row of its page is made where
    /// there is none: it is found at once when the point is visited again. Its error is lack of memory, and comes only
    /// then.
    #[inline(always)]
    pub fn clear(&mut self, point: &Point) -> Result<u32, NoMemory>
        ensures counted { IfOk result (λ count. count ≡ count_of self.old point.now) }
        ensures cleared { OnOk result (Clears self.old self.new point.now) }
        ensures memory { OnErr result (WantsRow self.old point.now) }
    {
        if !is_counted(point) {
            return Ok(0);
        }
        let index = self.row_of(page_of(point))?;
        Ok(self.clear_at(index, point))
    }

    /// How often a point was counted.
    pub fn count(&self, point: &Point) -> u32
        ensures { result ≡ count_of self.now point.now }
    {
        if !is_counted(point) {
            return 0;
        }
        match self.find(&page_of(point)) {
            Some(index) => self.value(index, column_of(point)),
            None => 0,
        }
    }
}
