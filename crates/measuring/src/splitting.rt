ghost use Rattle.std.specs.Prelude.{◌≡◌, ◌&&◌, ◌++◌, not, true, IfOk, OnOk};
ghost use Rattle.std.specs.List.{list_all};
ghost use Rattle.max_flow.specs.Flows.{has_first, has_second};
ghost use Rattle.acceptance_law.specs.RunCuts.{is_inner, is_instruction_slot};
ghost use Rattle.measuring.specs.Splits.{is_cut, point_if, region_if, skipped, split_points};
ghost use Rattle.flow_base.specs.Points.{is_region_number};

use flow_base::{List, NoMemory, Point, Slot};
use flow_graph::Node;
use max_flow::Half;
use std::alloc::Global;

/// Puts a region at the end, if its relay is in the side.
fn put_region(skip: &mut List<u16>, relay: u16, answer: bool) -> Result<(), NoMemory>
    requires { list_all is_region_number skip.old ≡ true }
    ensures put { OnOk result (skip.new ≡ skip.old ++ region_if relay answer) }
    ensures valid { OnOk result (list_all is_region_number skip.new ≡ true) }
{
    if answer && relay != 0 {
        skip.push(relay)
    } else {
        Ok(())
    }
}

/// The regions whose relay is in the side, in order.
pub(crate) fn skipped_regions(
    alloc: Global,
    relays: &[u16],
    answers: &[bool],
) -> Result<List<u16>, NoMemory>
    ensures skip { IfOk result (λ skip. skip ≡ skipped relays.now answers.now) }
    ensures valid { IfOk result (λ skip. list_all is_region_number skip ≡ true) }
{
    let mut skip = List::new(alloc);
    let mut rest = relays;
    let mut left = answers;
    while let [relay, more @ ..] = rest {
        let [answer, others @ ..] = left else {
            return Ok(skip);
        };
        put_region(&mut skip, *relay, *answer)?;
        rest = more;
        left = others;
    }
    Ok(skip)
}

/// Whether an instruction that is no call passes this slot.
fn is_of_instruction(slot: Slot) -> bool
    ensures { result ≡ is_instruction_slot slot }
{
    match slot {
        Slot::First | Slot::Second | Slot::Address | Slot::Result | Slot::Decision => true,
        _ => false,
    }
}

/// Whether a point is inside one of these regions, at a slot of an instruction that is no call.
fn is_inside(skip: &[u16], point: &Point) -> bool
    ensures { result ≡ is_inner skip.now point.now }
{
    skip.contains(&point.region) && is_of_instruction(point.slot)
}

/// Whether the side has the first half of a point and not the second.
fn is_split(half: Half) -> bool
    ensures { result ≡ (has_first half && not (has_second half)) }
{
    match half {
        Half::Both => false,
        Half::FirstOnly => true,
        Half::SecondOnly => false,
        Half::Neither => false,
    }
}

/// Puts a point at the end, if the cut has it.
fn put_point(
    points: &mut List<Point>,
    skip: &[u16],
    point: &Point,
    half: Half,
) -> Result<(), NoMemory>
    ensures { OnOk result (points.new ≡ points.old ++ point_if skip.now point.now half) }
{
    if is_split(half) && !is_inside(skip, point) {
        points.push(*point)
    } else {
        Ok(())
    }
}

/// The points that the side splits, in order, without the inner ones of skipped regions.
pub(crate) fn points_of_cut(
    alloc: Global,
    skip: &[u16],
    nodes: &[Node],
    halves: &[Half],
) -> Result<List<Point>, NoMemory>
    ensures { IfOk result (λ points. points ≡ split_points skip.now nodes.now halves.now) }
{
    let mut points = List::new(alloc);
    let mut rest = nodes;
    let mut left = halves;
    while let [node, more @ ..] = rest {
        let [half, others @ ..] = left else {
            return Ok(points);
        };
        put_point(&mut points, skip, &node.point, *half)?;
        rest = more;
        left = others;
    }
    Ok(points)
}
