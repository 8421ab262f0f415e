ghost use Rattle.std.specs.Prelude.{◌≡◌, ◌<◌, ◌^◌, length, IfErr, IfOk};
ghost use Rattle.cut_file.specs.Faults.{FirstCutFault};
ghost use Rattle.cut_file.specs.Pictures.{cut_picture};
ghost use Rattle.base_rows.specs.Rows.{IsFoldText, IsMigratedText, IsWritten};

use cut_file::{Cut, CutFault, fold, mask_at, migrate, read_cut, write_cut};
use flow_base::{Bytes, NoMemory};
use std::alloc::Global;

/// What is written of the cut of a file, or the first fault of the file.
pub fn written(alloc: Global, file: &[u8]) -> Result<Bytes, CutFault>
    requires { length file.now < 2 ^ 32 }
    ensures text { IfOk result (λ text. IsWritten file.now text) }
    ensures fault { IfErr result (λ fault. FirstCutFault file.now fault) }
{
    let cut = read_cut(alloc, file)?;
    Ok(write_cut(alloc, &cut)?)
}

/// The text of the fold of a cut in version 1.
pub fn fold_text(alloc: Global, cut: &Cut) -> Result<Bytes, NoMemory>
    requires { cut.now.version ≡ 1 }
    ensures { IfOk result (λ text. IsFoldText (cut_picture cut.now) text) }
{
    let folded = fold(alloc, cut)?;
    write_cut(alloc, &folded)
}

/// The text of a cut in version 2.
pub fn migrated_text(alloc: Global, cut: &Cut) -> Result<Bytes, NoMemory>
    ensures { IfOk result (λ text. IsMigratedText (cut_picture cut.now) text) }
{
    let migrated = migrate(alloc, cut)?;
    write_cut(alloc, &migrated)
}

/// The mask at a visit of the first point of the cut of a file, counted from 1; None where there is none.
pub fn first_mask(alloc: Global, file: &[u8], visit: u64) -> Option<u32>
    requires { length file.now < 2 ^ 32 }
{
    let cut = read_cut(alloc, file).ok()?;
    let [point, ..] = cut.points.as_slice() else {
        return None;
    };
    if visit == 0 {
        return None;
    }
    Some(mask_at(point, visit))
}
