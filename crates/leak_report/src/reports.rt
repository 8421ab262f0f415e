ghost use Rattle.std.specs.Prelude.{◌≡◌, ◌++◌, IfOk, OnOk, true};
ghost use Rattle.std.specs.List.{list_all};
ghost use Rattle.leak_report.specs.Reports.{cut_line, cut_lines, first_line as first_line_of};
ghost use Rattle.leak_report.specs.Reports.{report_text as report_text_of, skip_line, skip_lines};
ghost use Rattle.max_flow.specs.Flows.{is_small};

use crate::capacities::capacity_of;
use cut_file::CutPoint;
use flow_base::{Bytes, HexWord, NoMemory, Point};
use flow_graph::Node;
use measuring::Measured;
use std::alloc::Global;

/// The first line: what was measured, and how large run and graph are.
fn first_line(alloc: Global, measured: &Measured) -> Result<Bytes, NoMemory>
    ensures { IfOk result (λ text. text ≡ first_line_of measured.now) }
{
    let bits = measured.value;
    let secret = measured.cut.secret_len;
    let turns = measured.turns;
    let points = measured.graph.points.len();
    let links = measured.graph.links.len();
    let output = measured.output.bytes.len();
    let status = measured.output.status;
    let run = format!(in alloc; "bits {bits} secret {secret} turns {turns} ")?;
    let graph = format!(in alloc;
        "points {points} links {links} output {output} status {status}\n"
    )?;
    let mut text = run.into_bytes();
    text.extend_from_slice(graph.as_bytes())?;
    Ok(Bytes::from_vec(text))
}

/// Puts the line of a skipped region at the end of a text.
fn put_region(alloc: Global, text: &mut Vec<u8>, region: u16) -> Result<(), NoMemory>
    ensures { OnOk result (text.new.items ≡ text.old.items ++ skip_line region) }
{
    let line = format!(in alloc; "skip {region}\n")?;
    text.extend_from_slice(line.as_bytes())?;
    Ok(())
}

/// Puts the line of each skipped region at the end of a text.
fn put_regions(alloc: Global, text: &mut Vec<u8>, regions: &[u16]) -> Result<(), NoMemory>
    ensures { OnOk result (text.new.items ≡ text.old.items ++ skip_lines regions.now) }
{
    for region in regions {
        put_region(alloc, text, *region)?;
    }
    Ok(())
}

/// Puts the line of a point of the cut at the end of a text.
fn put_point(
    alloc: Global,
    text: &mut Vec<u8>,
    nodes: &[Node],
    point: Point,
) -> Result<(), NoMemory>
    requires { list_all is_small nodes.now ≡ true }
    ensures { OnOk result (text.new.items ≡ text.old.items ++ cut_line nodes.now point) }
{
    let bits = capacity_of(nodes, point);
    let line = format!(in alloc; "cut {point} bits {bits}\n")?;
    text.extend_from_slice(line.as_bytes())?;
    Ok(())
}

/// Puts the line of each point of the cut at the end of a text.
fn put_points(
    alloc: Global,
    text: &mut Vec<u8>,
    nodes: &[Node],
    points: &[CutPoint],
) -> Result<(), NoMemory>
    requires { list_all is_small nodes.now ≡ true }
    ensures { OnOk result (text.new.items ≡ text.old.items ++ cut_lines nodes.now points.now) }
{
    for cut_point in points {
        put_point(alloc, text, nodes, cut_point.point)?;
    }
    Ok(())
}

/// The report of a measured run: one line with its number of bits, the length of the secret, the turns, the points and
/// the links of the graph, the length of the output and the status; then a line for each region that the cut skips, and
/// one for each point of the cut, with the point's capacity in bits. Its error is lack of memory.
pub fn report_text(alloc: Global, measured: &Measured) -> Result<Bytes, NoMemory>
    ensures { IfOk result (λ text. text ≡ report_text_of measured.now) }
{
    let first = first_line(alloc, measured)?;
    let mut text = first.into_vec();
    put_regions(alloc, &mut text, measured.cut.skip.as_slice())?;
    put_points(
        alloc,
        &mut text,
        measured.graph.points.as_slice(),
        measured.cut.points.as_slice(),
    )?;
    Ok(Bytes::from_vec(text))
}
