ghost use Rattle.std.specs.Prelude.{◌≡◌, IfOk, OnOk, map, true};
ghost use Rattle.std.specs.List.{list_all};
ghost use Rattle.serde_json.specs.Data.{array, put as with_member};
ghost use Rattle.serde_json.specs.View.{items_of, members_view, view};
ghost use Rattle.leak_report.specs.JsonReports.{point_data, report_data, report_json as report_json_of, whole};
ghost use Rattle.leak_report.specs.Private.Members.{with_first, with_last};
ghost use Rattle.max_flow.specs.Flows.{is_small};

use crate::capacities::capacity_of;
use cut_file::CutPoint;
use flow_base::{Bytes, HexWord, NoMemory, Point};
use flow_graph::Node;
use measuring::Measured;
use serde_json::{Map, Value, json};
use std::alloc::Global;

/// The data of a point of the cut.
fn point_value(alloc: Global, nodes: &[Node], point: Point) -> Result<Value, NoMemory>
    requires { list_all is_small nodes.now ≡ true }
    ensures { IfOk result (λ value. view value ≡ point_data nodes.now point) }
{
    let word = HexWord(point.address);
    let address = format!(in alloc; "{word}")?;
    let shown = point.slot;
    let slot = format!(in alloc; "{shown}")?;
    let bits = capacity_of(nodes, point);
    let region = point.region;
    let value =
        json!(in alloc; {"address": address, "bits": bits, "region": region, "slot": slot})?;
    Ok(value)
}

/// The data of each point of the cut.
fn cut_values(alloc: Global, nodes: &[Node], points: &[CutPoint]) -> Result<Vec<Value>, NoMemory>
    requires { list_all is_small nodes.now ≡ true }
    ensures { IfOk result (λ values. map view values.items ≡ map (λ cut_point. point_data nodes.now cut_point.point)
        points.now) }
{
    let mut values = Vec::new(alloc);
    for cut_point in points {
        let value = point_value(alloc, nodes, cut_point.point)?;
        serde_json::push(&mut values, value)?;
    }
    Ok(values)
}

/// The data of each skipped region.
fn skip_values(alloc: Global, regions: &[u16]) -> Result<Vec<Value>, NoMemory>
    ensures { IfOk result (λ values. map view values.items ≡ map whole regions.now) }
{
    let mut values = Vec::new(alloc);
    for region in regions {
        serde_json::push(&mut values, Value::from(*region))?;
    }
    Ok(values)
}

/// Puts a number under a key.
fn put_number(
    alloc: Global,
    members: &mut Map<String, Value>,
    key: &str,
    number: u64,
) -> Result<(), NoMemory>
    ensures { OnOk result (members_view members.new.entries ≡ with_member key.now (whole number) (members_view
        members.old.entries)) }
{
    serde_json::put(members, alloc, key, Value::from(number))?;
    Ok(())
}

/// Puts an array under a key.
fn put_values(
    alloc: Global,
    members: &mut Map<String, Value>,
    key: &str,
    values: Vec<Value>,
) -> Result<(), NoMemory>
    ensures { OnOk result (members_view members.new.entries ≡ with_member key.now (array (items_of (map view
        values.items))) (members_view members.old.entries)) }
{
    serde_json::put(members, alloc, key, Value::from(values))?;
    Ok(())
}

/// Puts the members from `secret` on, the last first, so that each finds its place at once.
fn put_last(
    alloc: Global,
    members: &mut Map<String, Value>,
    measured: &Measured,
) -> Result<(), NoMemory>
    ensures { OnOk result (members_view members.new.entries ≡ with_last measured.now (members_view
        members.old.entries)) }
{
    let skip = skip_values(alloc, measured.cut.skip.as_slice())?;
    put_number(alloc, members, "turns", u64::from(measured.turns))?;
    put_number(alloc, members, "status", u64::from(measured.output.status))?;
    put_values(alloc, members, "skip", skip)?;
    put_number(alloc, members, "secret", u64::from(measured.cut.secret_len))
}

/// Puts the members before `secret`, the last first.
fn put_first(
    alloc: Global,
    members: &mut Map<String, Value>,
    measured: &Measured,
) -> Result<(), NoMemory>
    ensures { OnOk result (members_view members.new.entries ≡ with_first measured.now (members_view
        members.old.entries)) }
{
    let points = measured.graph.points.as_slice();
    let cut = cut_values(alloc, points, measured.cut.points.as_slice())?;
    put_number(alloc, members, "points", points.len() as u64)?;
    put_number(alloc, members, "output", measured.output.bytes.len() as u64)?;
    put_number(alloc, members, "links", measured.graph.links.len() as u64)?;
    put_values(alloc, members, "cut", cut)?;
    put_number(alloc, members, "bits", measured.value)
}

/// The data of a report.
fn report_value(alloc: Global, measured: &Measured) -> Result<Value, NoMemory>
    ensures { IfOk result (λ value. view value ≡ report_data measured.now) }
{
    let mut members = Map::new(alloc);
    put_last(alloc, &mut members, measured)?;
    put_first(alloc, &mut members, measured)?;
    Ok(Value::Object(members))
}

/// The same report as JSON: the compact text of one object and a line feed. Its keys ascend, and so do those of the
/// points of the cut, which stand in the array `cut`. Its error is lack of memory.
pub fn report_json(alloc: Global, measured: &Measured) -> Result<Bytes, NoMemory>
    ensures { IfOk result (λ text. text ≡ report_json_of measured.now) }
{
    let value = report_value(alloc, measured)?;
    let compact = value.to_string(alloc)?;
    let mut text = compact.into_bytes();
    text.extend_from_slice(b"\n")?;
    Ok(Bytes::from_vec(text))
}
