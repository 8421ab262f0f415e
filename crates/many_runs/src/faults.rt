use flow_base::NoMemory;
use run_labels::MeasureFault;
use std::fmt;
use thiserror::Error;

/// Why several runs are not measured together: the first reason that holds, in this order.
#[derive(Clone, Copy, Debug, Error)]
pub enum ManyFault {
    /// The secret with this index, counted from 1, is the first that has another length than the first secret; both
    /// lengths in bytes.
    Length { index: u32, first: u32, got: u32 },
    /// The run on the secret with this index, counted from 1, is the first that is not measured, and why.
    Run { index: u32, fault: MeasureFault },
    /// The graph of all runs together has more than 65,536 points, more than 1,048,576 links or a capacity of 2^48 bits or
    /// more.
    UnitedLimit,
    /// Its maximum flow, in bits, is more than 1,048,576, the limit of a budget.
    BudgetLimit { value: u64 },
    /// There is not enough memory.
    Memory,
}

impl fmt::Display for ManyFault {
    ghost use Rattle.std.specs.Prelude.{Some};
    ghost use Rattle.many_runs.specs.Faults.{many_fault_text};

    ghost output = { λ fault. Some (many_fault_text fault) };

    fn fmt<W: fmt::Write>(&self, f: &mut fmt::Formatter<W>) -> fmt::Result {
        match *self {
            ManyFault::Length { index, first, got } => {
                write!(f, "length {index} first {first} got {got}")
            }
            ManyFault::Run { index, fault } => write!(f, "run {index} {fault}"),
            ManyFault::UnitedLimit => write!(f, "united-limit"),
            ManyFault::BudgetLimit { value } => write!(f, "budget-limit {value}"),
            ManyFault::Memory => write!(f, "memory"),
        }
    }
}

impl From<NoMemory> for ManyFault {
    ghost use Rattle.std.specs.Prelude.{◌≡◌};
    ghost use Rattle.many_runs.specs.declared.faults.ManyFault.TheVariants.{Memory};
    ghost use Rattle.flow_base.specs.declared.lists.NoMemory.{NoMemory as TheNoMemory};

    ghost from_gives = { λ _ fault. fault ≡ Memory };

    fn from(_: NoMemory) -> ManyFault {
        ManyFault::Memory
    }
}
