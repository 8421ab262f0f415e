ghost use Rattle.std.specs.Prelude.{◌≡◌, ◌∷◌, [], List as Seq, ℕ, ◌≤◌, true, false, IfOk, IsTrue};
ghost use Rattle.flow_base.specs.declared.points.Point.{Point as ThePoint};
ghost use Rattle.flow_base.specs.Points.{is_slot, width_of};
ghost use Rattle.cut_file.specs.Masks.{MaskAt};
ghost use Rattle.replay_machine.specs.Runs.{Masks, mask_at};
ghost use Rattle.replay_machine.specs.Visits.{IsAhead, SameAhead};

use crate::cursors::Cursor;
use crate::cut_tables::CutTable;
use crate::equality::are_same_cursors;
use flow_base::{NoMemory, Point};
use region_machine::LentMarks;
use std::alloc::Global;
use std::marker::Model;

/// The masks of a cut at the next visits of its points, with a table of the cut that is lent, so that several walks can
/// have one each. The marks of the table's addresses are lent beside it: most visits look at no more. Contracts see it as
/// the points with the masks that are ahead.
#[derive(Drop)]
pub struct LentVisits<'c> {
    table: &'c CutTable,
    marks: LentMarks<'c>,
    cursors: Vec<Cursor>,
}

impl<'c> Model for LentVisits<'c> {
    ghost use Rattle.std.specs.Prelude.{◌≡◌, List as Seq, length, vec_len, IsTrue};
    ghost use Rattle.std.specs.List.{list_all};
    ghost use Rattle.cut_file.specs.declared.points.CutPoint.{CutPoint as TheCutPoint};
    ghost use Rattle.replay_machine.specs.Tables.{all_ahead, is_marked};

    ghost Value = { Seq TheCutPoint };

    ghost view = { λ t. all_ahead t.table.now t.cursors.items };

    ghost invariant = { λ t. (vec_len t.cursors ≡ length t.table.now)
        × IsTrue (list_all (is_marked t.marks) t.table.now) };
}

impl<'c> LentVisits<'c> {
    /// The masks of a table before the first visit of any point. Its error is lack of memory.
    pub fn new(alloc: Global, table: &'c CutTable) -> Result<LentVisits<'c>, NoMemory>
        ensures { IfOk result (λ visits. IsAhead visits (MaskAt table.now) []) }
    {
        let cursors = table.first_cursors(alloc)?;
        let marks = table.marks();
        Ok(LentVisits {
            table,
            marks,
            cursors,
        })
    }

    /// The mask at the next visit of a point, 0 where the cut does not name the point; that visit is then past. At an
    /// address that no point of the cut has, it is mostly found by one look, and else in the logarithm of the number of
    /// the cut's points. It takes no memory.
    #[inline(always)]
    pub fn next(&mut self, point: Point) -> u32
        requires { IsTrue (is_slot point.slot) }
        ensures mask { (masks : Masks) (past : Seq ThePoint) → IsAhead self.old masks past →
            result ≡ mask_at masks past point }
        ensures counted { (masks : Masks) (past : Seq ThePoint) → IsAhead self.old masks past →
            IsAhead self.new masks (point ∷ past) }
        ensures width { result ≤ width_of point.slot }
    {
        if !self.marks.may_have(point.address) {
            return 0;
        }
        self.table.pass(&mut self.cursors, point)
    }

    /// Visits with the same masks ahead. Where the masks ahead are the same, two copies are mostly the same too.
    pub fn copy(&self, alloc: Global) -> Result<LentVisits<'c>, NoMemory>
        ensures { IfOk result (λ copy. SameAhead copy self.now) }
    {
        let cursors = self.table.ready_cursors(alloc, &self.cursors)?;
        Ok(LentVisits {
            table: self.table,
            marks: self.table.marks(),
            cursors,
        })
    }

    /// Whether the visits and the points are the same.
    pub fn is_same(&self, other: &LentVisits<'_>) -> bool
        ensures { result ≡ true → self.now ≡ other.now }
    {
        are_same_cursors(self.cursors.as_slice(), other.cursors.as_slice())
            && self.table.is_same(other.table)
    }

    /// Whether the cut may have a point with this address. At most addresses of which it has none it is told.
    #[inline(always)]
    pub fn is_marked(&self, address: u32) -> bool
        ensures { result ≡ false → (point : ThePoint) (visit : ℕ) → point.address ≡ address →
            MaskAt self.now point visit ≡ 0 }
    {
        self.marks.may_have(address)
    }
}
