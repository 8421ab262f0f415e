ghost use Rattle.std.specs.Prelude.{◌≡◌, ◌≤◌, IfErr, IfOk};
ghost use Rattle.many_runs.specs.Private.WeighingAll.{HasFittingEvents, IsWeighFault, WeighsAll};

use crate::faults::ManyFault;
use crate::many::Many;
use max_flow::{Solved, solve};
use measuring::{Recording, cut_of};
use std::alloc::Global;

/// The greatest budget of a check, in bits.
const MAX_BUDGET: u64 = 1_048_576;

/// The measure of a recording, whose value is within the limit of a budget.
/// `UnitedLimit` where its graph exceeds a limit, `BudgetLimit` where the maximum flow exceeds that of a budget; `Memory`
/// where there is not enough.
pub(crate) fn weigh_all(alloc: Global, secret_len: u32, union: Recording) -> Result<Many, ManyFault>
    requires short { secret_len ≤ 65536 }
    requires known { HasFittingEvents union }
    ensures ok { IfOk result (λ many. WeighsAll union secret_len many) }
    ensures budget { IfOk result (λ many. many.value ≤ 1048576) }
    ensures err { IfErr result (λ fault. IsWeighFault union fault) }
{
    let Recording { collapse, visits } = union;
    if collapse.is_full {
        return Err(ManyFault::UnitedLimit);
    }
    let graph = collapse.finish(alloc)?;
    let Solved { value, flow, side } = solve(alloc, &graph)?;
    if value > MAX_BUDGET {
        return Err(ManyFault::BudgetLimit { value });
    }
    let cut = cut_of(alloc, secret_len, &graph, &side, value, &visits)?;
    Ok(Many {
        value,
        graph,
        flow,
        side,
        cut,
    })
}
