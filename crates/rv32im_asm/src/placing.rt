//! The places of the labels of a source.

ghost use Rattle.std.specs.Prelude.{◌≡◌, ℕ, ◌+◌, ◌<◌, ◌≤◌, ◌^◌, List as Seq, IfOk, IfSome, length};
ghost use Rattle.rv32im_asm.specs.Private.Labels.{IsNear, IsNearBy, places_in};
ghost use Rattle.rv32im_asm.specs.Lines.{lines_of};
ghost use Rattle.rv32im_asm.specs.Operands.{both};
ghost use Rattle.rv32im_asm.specs.Sizes.{line_size as size_of_line, place_of};

use crate::cutting::first_line;
use crate::labels::Labels;
use crate::lines::label;
use crate::meanings::statement_in;
use crate::pieces::size;
use crate::places::Place;
use flow_base::NoMemory;
use std::alloc::Global;

/// The size in bytes of a line; None where it is not of a form.
fn line_size(line: &[u8]) -> Option<u64>
    ensures exact { result ≡ size_of_line line.now }
    ensures small { IfSome result (λ size. size ≤ 1048576) }
{
    let statement = statement_in(line)?;
    size(statement.operation, statement.value.number)
}

/// The size of some lines and one more.
fn grown(offset: Option<u64>, line: &[u8]) -> Option<u64>
    requires { IsNearBy offset }
    ensures exact { result ≡ both (λ before size. before + size) offset (size_of_line line.now) }
    ensures small { IfSome result (λ after. IfSome offset (λ before. after ≤ before + 1048576)) }
{
    let before = offset?;
    let size = line_size(line)?;
    Some(before + size)
}

/// The places of the labels of a source.
pub fn place_labels<'a>(alloc: Global, source: &'a [u8]) -> Result<Labels<'a>, NoMemory>
    requires { length source.now < 2 ^ 32 }
    ensures places { IfOk result (λ labels. (name : Seq ℕ)
        → places_in labels name ≡ place_of (lines_of source.entry.now) name) }
    ensures near { IfOk result (λ labels. (name : Seq ℕ) → IsNear (places_in labels name)) }
{
    let mut labels = Labels::new(alloc);
    let mut index: u64 = 0;
    let mut offset: Option<u64> = Some(0);
    let mut rest = source;
    while !rest.is_empty() {
        let (line, more) = first_line(rest);
        let place = Place { index, offset };
        labels.note(label(line), place)?;
        offset = grown(offset, line);
        index += 1;
        rest = more;
    }
    Ok(labels)
}
