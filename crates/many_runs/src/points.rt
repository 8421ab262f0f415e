ghost use Rattle.std.specs.BTreeSet as sorted;
ghost use Rattle.std.specs.Prelude.{◌≡◌, ◌||◌, ◌<◌, ◌≤◌, ◌%◌, [], ℕ, IfOk, OnOk, false, is_some, length, slice_index, true};
ghost use Rattle.std.specs.List.{list_any};
ghost use Rattle.std.specs.List.Sorted.{IsStrictlySortedBy};
ghost use Rattle.std.specs.Map.{lookup};
ghost use Rattle.flow_base.specs.declared.points.Point.{Point as ThePoint};
ghost use Rattle.flow_base.specs.PointOrders.{is_same, point_cmp};
ghost use Rattle.measuring.specs.Counts.{count_at};
ghost use Rattle.measuring.specs.Visits.{all_masks};
ghost use Rattle.many_runs.specs.Private.Joining.{recorded_masks};
ghost use Rattle.many_runs.specs.Private.Points.{point_at};

use flow_base::{List, NoMemory, Point};
use indexmap::IndexMap;
use measuring::{KeptVisits, PointVisits, Recording, Row};
use std::alloc::Global;
use std::collections::BTreeSet;

/// Puts a point among others.
fn put_point(points: &mut BTreeSet<Point>, point: Point) -> Result<(), NoMemory>
    ensures { OnOk result ((q : ThePoint) → sorted.contains point_cmp points.new q ≡
        (sorted.contains point_cmp points.old q || is_same q point)) }
{
    match points.insert(point) {
        Ok(_) => Ok(()),
        Err(_) => Err(NoMemory),
    }
}

/// Puts the point of a counter among others, unless it is 0.
fn put_column(
    points: &mut BTreeSet<Point>,
    page: Point,
    column: u32,
    count: u32,
) -> Result<(), NoMemory>
    requires { column < 1024 }
    ensures stay { OnOk result ((q : ThePoint) → sorted.contains point_cmp points.new q ≡ false →
        sorted.contains point_cmp points.old q ≡ false) }
    ensures counted { OnOk result (page.address % 4096 ≡ 0 → 0 < count →
        sorted.contains point_cmp points.new (point_at page column) ≡ true) }
{
    if count == 0 {
        return Ok(());
    }
    let Some(address) = page.address.checked_add(4 * column) else {
        return Ok(());
    };
    put_point(
        points,
        Point {
            region: page.region,
            address,
            slot: page.slot,
        },
    )
}

/// Puts the points of the counters of a page that are not 0 among others.
fn put_row(points: &mut BTreeSet<Point>, page: Point, counts: &[u32]) -> Result<(), NoMemory>
    requires { length counts.now ≤ 1024 }
    ensures stay { OnOk result ((q : ThePoint) → sorted.contains point_cmp points.new q ≡ false →
        sorted.contains point_cmp points.old q ≡ false) }
    ensures counted { OnOk result (page.address % 4096 ≡ 0 → (column : ℕ) → column < length counts.now →
        0 < slice_index counts.now column → sorted.contains point_cmp points.new (point_at page column) ≡ true) }
{
    for column in 0..counts.len() {
        put_column(points, page, column as u32, counts[column])?;
    }
    Ok(())
}

/// Puts the points of all counters that are not 0 among others.
fn put_rows(points: &mut BTreeSet<Point>, rows: &IndexMap<Point, Row>) -> Result<(), NoMemory>
    ensures stay { OnOk result ((q : ThePoint) → sorted.contains point_cmp points.new q ≡ false →
        sorted.contains point_cmp points.old q ≡ false) }
    ensures counted { OnOk result ((page : ThePoint) (column : ℕ) → page.address % 4096 ≡ 0 →
        0 < count_at rows.now.entries page column →
        sorted.contains point_cmp points.new (point_at page column) ≡ true) }
{
    let mut left = rows.len();
    while left > 0 {
        left -= 1;
        if let Some((page, row)) = rows.get_index(left) {
            put_row(points, *page, row.counts.as_slice())?;
        }
    }
    Ok(())
}

/// Puts the points that have kept runs of visits among others.
fn put_kept(
    points: &mut BTreeSet<Point>,
    kept: &IndexMap<Point, PointVisits>,
) -> Result<(), NoMemory>
    ensures stay { OnOk result ((q : ThePoint) → sorted.contains point_cmp points.new q ≡ false →
        sorted.contains point_cmp points.old q ≡ false) }
    ensures kept { OnOk result ((q : ThePoint) → sorted.contains point_cmp points.new q ≡ false →
        is_some (lookup (is_same q) kept.now.entries) ≡ false) }
{
    let mut left = kept.len();
    while left > 0 {
        left -= 1;
        if let Some((point, _)) = kept.get_index(left) {
            put_point(points, *point)?;
        }
    }
    Ok(())
}

/// Puts the points that have visits among others.
fn put_visits(points: &mut BTreeSet<Point>, visits: &KeptVisits) -> Result<(), NoMemory>
    ensures stay { OnOk result ((q : ThePoint) → sorted.contains point_cmp points.new q ≡ false →
        sorted.contains point_cmp points.old q ≡ false) }
    ensures visited { OnOk result ((q : ThePoint) → sorted.contains point_cmp points.new q ≡ false →
        all_masks visits.now q ≡ []) }
{
    put_rows(points, &visits.counts.rows.map)?;
    put_kept(points, &visits.points.map)?;
    Ok(())
}

/// Puts the points that have visits in one of the recordings among others.
fn put_recordings(points: &mut BTreeSet<Point>, recordings: &[Recording]) -> Result<(), NoMemory>
    ensures { OnOk result ((q : ThePoint) → sorted.contains point_cmp points.new q ≡ false →
        recorded_masks q recordings.now ≡ []) }
{
    let mut rest = recordings;
    while let [recording, more @ ..] = rest {
        put_visits(points, &recording.visits)?;
        rest = more;
    }
    Ok(())
}

/// The items of a set, in order.
fn listed(alloc: Global, set: &BTreeSet<Point>) -> Result<List<Point>, NoMemory>
    ensures items { IfOk result (λ list. list ≡ set.now.keys) }
    ensures ordered { sorted.IsOrdered point_cmp set.now }
{
    let mut list = List::new(alloc);
    for point in set {
        list.push(*point)?;
    }
    Ok(list)
}

/// The points that have visits in one of the recordings, in order.
pub(crate) fn all_points(alloc: Global, recordings: &[Recording]) -> Result<List<Point>, NoMemory>
    ensures points { IfOk result (λ points. (q : ThePoint) → list_any (is_same q) points ≡ false →
        recorded_masks q recordings.now ≡ []) }
    ensures sorted { IfOk result (λ points. IsStrictlySortedBy point_cmp points) }
{
    let mut set = BTreeSet::new(alloc);
    put_recordings(&mut set, recordings)?;
    listed(alloc, &set)
}
