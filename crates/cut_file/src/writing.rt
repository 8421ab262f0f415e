ghost use Rattle.std.specs.Prelude.{◌≡◌, ◌++◌, ◌∷◌, ℕ, IfOk, OnOk, map, codes, []};
ghost use Rattle.std.specs.Fmt.{decimal};
ghost use Rattle.flow_base.specs.HexWords.{hex_word};
ghost use Rattle.flow_base.specs.Points.{point_text};
ghost use Rattle.cut_file.specs.Pictures.{cut_picture};
ghost use Rattle.cut_file.specs.Private.Writing.{later_lines, led, point_pieces};
ghost use Rattle.cut_file.specs.Texts.{CutText, lines_text, rest_text, run_text};
ghost use Rattle.cut_file.specs.declared.lines.Line.TheVariants.{Bits, Point as PointLine, Secret, Skip, Version};

use crate::cuts::Cut;
use crate::points::{CutPoint, Run};
use flow_base::{Bytes, HexWord, List, NoMemory, Point, put};
use std::alloc::Global;

// Puts a run at the end of a text, after a space.
fn put_run(alloc: Global, text: &mut Vec<u8>, run: &Run) -> Result<(), NoMemory>
    ensures { OnOk result (text.new.items ≡ text.old.items ++ (32 ∷ run_text run.now)) }
{
    let count = run.count;
    let mask = HexWord(run.mask);
    let piece = format!(in alloc; " {count}*{mask}")?;
    put(text, piece.as_bytes())
}

// Puts runs at the end of a text, each after a space.
fn put_runs(alloc: Global, text: &mut Vec<u8>, runs: &[Run]) -> Result<(), NoMemory>
    ensures { OnOk result (text.new.items ≡ text.old.items ++ led (map run_text runs.now)) }
{
    for run in runs {
        put_run(alloc, text, run)?;
    }
    Ok(())
}

// Puts a mask at the end of a text, after a space.
fn put_mask(alloc: Global, text: &mut Vec<u8>, mask: u32) -> Result<(), NoMemory>
    ensures { OnOk result (text.new.items ≡ text.old.items ++ (32 ∷ hex_word mask)) }
{
    let mask = HexWord(mask);
    let piece = format!(in alloc; " {mask}")?;
    put(text, piece.as_bytes())
}

// Puts a run after `rest` at the end of a text, after a space.
fn put_rest_run(alloc: Global, text: &mut Vec<u8>, version: u8, run: &Run) -> Result<(), NoMemory>
    ensures { OnOk result (text.new.items ≡ text.old.items ++ (32 ∷ rest_text version run.now)) }
{
    if version == 2 {
        put_run(alloc, text, run)
    } else {
        put_mask(alloc, text, run.mask)
    }
}

// Puts the runs after `rest` at the end of a text, each after a space.
fn put_rest(alloc: Global, text: &mut Vec<u8>, version: u8, rest: &[Run]) -> Result<(), NoMemory>
    ensures { OnOk result (text.new.items ≡ text.old.items ++ led (map (rest_text version) rest.now)) }
{
    for run in rest {
        put_rest_run(alloc, text, version, run)?;
    }
    Ok(())
}

// Puts the first four words of the line of a point at the end of a text.
fn put_place(alloc: Global, text: &mut Vec<u8>, point: Point) -> Result<(), NoMemory>
    ensures { OnOk result (text.new.items ≡ text.old.items ++ (codes "point " ++ point_text point)) }
{
    let piece = format!(in alloc; "point {point}")?;
    put(text, piece.as_bytes())
}

// Puts the line of a point at the end of a text.
fn put_point(
    alloc: Global,
    text: &mut Vec<u8>,
    version: u8,
    point: &CutPoint,
) -> Result<(), NoMemory>
    ensures { OnOk result (text.new.items ≡ text.old.items ++ point_pieces version point.now) }
{
    put_place(alloc, text, point.point)?;
    put_runs(alloc, text, point.runs.as_slice())?;
    put(text, b" rest")?;
    put_rest(alloc, text, version, point.rest.as_slice())?;
    put(text, b"\n")
}

// Puts the lines of points at the end of a text.
fn put_points(
    alloc: Global,
    text: &mut Vec<u8>,
    version: u8,
    points: &[CutPoint],
) -> Result<(), NoMemory>
    ensures { OnOk result (text.new.items ≡ text.old.items ++ lines_text version (map PointLine points.now)) }
{
    for point in points {
        put_point(alloc, text, version, point)?;
    }
    Ok(())
}

// Puts the line of a skipped region at the end of a text.
fn put_region(alloc: Global, text: &mut Vec<u8>, region: u16) -> Result<(), NoMemory>
    ensures { OnOk result (text.new.items ≡ text.old.items ++ (codes "skip " ++ (decimal region ++ codes "\n"))) }
{
    let piece = format!(in alloc; "skip {region}\n")?;
    put(text, piece.as_bytes())
}

// Puts the lines of skipped regions at the end of a text.
fn put_regions(alloc: Global, text: &mut Vec<u8>, regions: &[u16]) -> Result<(), NoMemory>
    ensures { OnOk result ((version : ℕ)
        → text.new.items ≡ text.old.items ++ lines_text version (map Skip regions.now)) }
{
    for region in regions {
        put_region(alloc, text, *region)?;
    }
    Ok(())
}

// The first three lines of a cut.
fn head(alloc: Global, version: u8, secret_len: u32, bits: u32) -> Result<Vec<u8>, NoMemory>
    ensures { IfOk result (λ text. text.items
        ≡ lines_text version (Version version ∷ (Secret secret_len ∷ (Bits bits ∷ [])))) }
{
    let text = format!(in alloc; "flowcheck-cut {version}\nsecret {secret_len}\nbits {bits}\n")?;
    Ok(text.into_bytes())
}

// Puts the lines of a cut after the first three at the end of a text.
fn put_lines(alloc: Global, text: &mut Vec<u8>, cut: &Cut) -> Result<(), NoMemory>
    ensures { OnOk result (text.new.items
        ≡ text.old.items ++ lines_text cut.now.version (later_lines (cut_picture cut.now))) }
{
    put_regions(alloc, text, cut.skip.as_slice())?;
    put_points(alloc, text, cut.version, cut.points.as_slice())?;
    put(text, b"end\n")
}

/// The one text of a cut, as [`read_cut`](crate::read_cut) reads it. Its error is lack of memory.
pub fn write_cut(alloc: Global, cut: &Cut) -> Result<Bytes, NoMemory>
    ensures { IfOk result (λ text. CutText text (cut_picture cut.now)) }
{
    let mut text = head(alloc, cut.version, cut.secret_len, cut.bits)?;
    put_lines(alloc, &mut text, cut)?;
    Ok(List::from_vec(text))
}
