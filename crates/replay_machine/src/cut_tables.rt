ghost use Rattle.std.specs.Prelude.{◌≡◌, [], ℕ, ◌≤◌, true, false, length, replicate, vec_len, IfOk, IsTrue, Some, None};
ghost use Rattle.std.specs.List.{list_all};
ghost use Rattle.flow_base.specs.declared.points.Point.{Point as ThePoint};
ghost use Rattle.flow_base.specs.Points.{is_slot, width_of};
ghost use Rattle.cut_file.specs.Cuts.{are_points};
ghost use Rattle.cut_file.specs.Masks.{MaskAt};
ghost use Rattle.replay_machine.specs.Visits.{MovesOn, SameAhead};
ghost use Rattle.replay_machine.specs.Tables.{all_ahead, first_cursor, index_of, is_marked};

use crate::copies::{cut_points, first_cursors};
use crate::cursors::Cursor;
use crate::equality::are_same_points;
use crate::search::find;
use cut_file::{Cut, CutPoint};
use flow_base::{NoMemory, Point};
use region_machine::{AddressMarks, LentMarks};
use std::alloc::Global;
use std::marker::Model;

/// The points of a cut with their masks, in a form in which a point is soon found. Walks that each count their own
/// visits can share one. Contracts see it as the points.
#[derive(Drop)]
pub struct CutTable {
    points: Vec<CutPoint>,
    marks: AddressMarks,
}

impl Model for CutTable {
    ghost use Rattle.std.specs.Prelude.{List as Seq, IsTrue};
    ghost use Rattle.std.specs.List.{list_all};
    ghost use Rattle.cut_file.specs.declared.points.CutPoint.{CutPoint as TheCutPoint};
    ghost use Rattle.cut_file.specs.Cuts.{are_points};
    ghost use Rattle.replay_machine.specs.Tables.{is_marked};

    ghost Value = { Seq TheCutPoint };

    ghost view = { λ t. t.points.items };

    ghost invariant = { λ t. IsTrue (are_points t.points.items)
        × IsTrue (list_all (is_marked t.marks) t.points.items) };
}

/// The marks of the addresses that the points have.
fn marks_of(alloc: Global, points: &[CutPoint]) -> Result<AddressMarks, NoMemory>
    ensures { IfOk result (λ marks. IsTrue (list_all (is_marked marks) points.now)) }
{
    let mut marks = AddressMarks::new(alloc)?;
    for cut_point in points {
        marks.mark(cut_point.point.address);
    }
    Ok(marks)
}

/// The mask at the next visit of a point that has this index, and then the one after is next.
fn pass_at(points: &Vec<CutPoint>, cursors: &mut Vec<Cursor>, index: usize, point: Point) -> u32
    requires points { IsTrue (are_points points.now.items) }
    requires length { vec_len cursors.old ≡ vec_len points.now }
    requires found { index_of points.now.items point ≡ Some index }
    requires slot { IsTrue (is_slot point.slot) }
    ensures mask { result ≡ MaskAt (all_ahead points.now.items cursors.old.items) point 1 }
    ensures width { result ≤ width_of point.slot }
    ensures moves { MovesOn point (all_ahead points.now.items cursors.old.items)
        (all_ahead points.now.items cursors.new.items) }
    ensures length { vec_len cursors.new ≡ vec_len cursors.old }
{
    cursors[index].pass(&points[index])
}

/// The cursors, none of them at the end of a run. The masks that are ahead stay.
fn make_ready(points: &Vec<CutPoint>, cursors: &mut Vec<Cursor>)
    requires points { IsTrue (are_points points.now.items) }
    requires length { vec_len cursors.old ≡ vec_len points.now }
    ensures same { SameAhead (all_ahead points.now.items cursors.new.items)
        (all_ahead points.now.items cursors.old.items) }
    ensures length { vec_len cursors.new ≡ vec_len cursors.old }
{
    for index in 0..points.len() {
        cursors[index] = cursors[index].ready(&points[index]);
    }
}

impl CutTable {
    /// The table of a cut. Its error is lack of memory.
    pub fn new(alloc: Global, cut: &Cut) -> Result<CutTable, NoMemory>
        ensures { IfOk result (λ table. SameAhead table cut.now.points) }
    {
        let points = cut_points(alloc, cut)?;
        let marks = marks_of(alloc, points.as_slice())?;
        Ok(CutTable { points, marks })
    }

    /// The cursors before the first visit of any point.
    pub(crate) fn first_cursors(&self, alloc: Global) -> Result<Vec<Cursor>, NoMemory>
        ensures { IfOk result (λ cursors. cursors.items ≡ replicate (length self.now) first_cursor) }
    {
        let cursors = first_cursors(alloc, self.points.len())?;
        Ok(cursors)
    }

    /// A copy of cursors, none of them at the end of a run. The masks that are ahead are the same.
    pub(crate) fn ready_cursors(
        &self,
        alloc: Global,
        cursors: &Vec<Cursor>,
    ) -> Result<Vec<Cursor>, NoMemory>
        requires { vec_len cursors.now ≡ length self.now }
        ensures same { IfOk result (λ copy. SameAhead (all_ahead self.now copy.items)
            (all_ahead self.now cursors.now.items)) }
        ensures length { IfOk result (λ copy. vec_len copy ≡ length self.now) }
    {
        let mut copy = cursors.as_slice().to_vec(alloc)?;
        make_ready(&self.points, &mut copy);
        Ok(copy)
    }

    /// The marks of the addresses that the points have.
    pub(crate) fn marks(&self) -> LentMarks<'_>
        ensures { IsTrue (list_all (is_marked result) self.now) }
    {
        self.marks.lend()
    }

    /// Whether the points are the same.
    pub(crate) fn is_same(&self, other: &CutTable) -> bool
        ensures { result ≡ true → self.now ≡ other.now }
    {
        are_same_points(self.points.as_slice(), other.points.as_slice())
    }

    /// The mask at the next visit of a point, 0 where the cut does not name the point; that visit is then past. The
    /// point is handed on as a copy, so that no visit at another address needs to keep one in memory. It takes no memory.
    #[inline(always)]
    pub(crate) fn pass(&self, cursors: &mut Vec<Cursor>, point: Point) -> u32
        requires length { vec_len cursors.old ≡ length self.now }
        requires slot { IsTrue (is_slot point.slot) }
        ensures mask { result ≡ MaskAt (all_ahead self.now cursors.old.items) point 1 }
        ensures width { result ≤ width_of point.slot }
        ensures moves { MovesOn point (all_ahead self.now cursors.old.items) (all_ahead self.now cursors.new.items) }
        ensures length { vec_len cursors.new ≡ vec_len cursors.old }
    {
        let Point {
            region,
            address,
            slot,
        } = point;
        self.pass_found(
            cursors,
            Point {
                region,
                address,
                slot,
            },
        )
    }

    /// The same, in the logarithm of the number of the points.
    #[cold]
    #[inline(never)]
    fn pass_found(&self, cursors: &mut Vec<Cursor>, point: Point) -> u32
        requires length { vec_len cursors.old ≡ length self.now }
        requires slot { IsTrue (is_slot point.slot) }
        ensures mask { result ≡ MaskAt (all_ahead self.now cursors.old.items) point 1 }
        ensures width { result ≤ width_of point.slot }
        ensures moves { MovesOn point (all_ahead self.now cursors.old.items) (all_ahead self.now cursors.new.items) }
        ensures length { vec_len cursors.new ≡ vec_len cursors.old }
    {
        match find(self.points.as_slice(), point) {
            Some(index) => pass_at(&self.points, cursors, index, point),
            None => 0,
        }
    }
}
