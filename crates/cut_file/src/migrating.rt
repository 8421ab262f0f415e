ghost use Rattle.std.specs.Prelude.{◌≡◌, IfOk};
ghost use Rattle.cut_file.specs.Folds.{migrated};
ghost use Rattle.cut_file.specs.Pictures.{cut_picture};

use crate::copies::copy_points;
use crate::cuts::Cut;
use flow_base::{List, NoMemory};
use std::alloc::Global;

/// The same cut in version 2; its masks are the same at each visit. Its error is lack of memory.
pub fn migrate(alloc: Global, cut: &Cut) -> Result<Cut, NoMemory>
    ensures { IfOk result (λ other. cut_picture other ≡ migrated (cut_picture cut.now)) }
{
    let skip = List::from_slice(alloc, cut.skip.as_slice())?;
    let points = copy_points(alloc, &cut.points)?;
    Ok(Cut {
        version: 2,
        secret_len: cut.secret_len,
        bits: cut.bits,
        skip,
        points,
    })
}
