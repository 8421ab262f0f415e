ghost use Rattle.std.specs.Prelude.{◌≡◌, ◌≢◌, ◌≤◌, ℕ, length, map, option_map, IfOk, IfErr, Err, Result};
ghost use Rattle.std.specs.Prelude.{◌∷◌, []};
ghost use Rattle.flow_base.specs.Loads.{after_load};
ghost use Rattle.command_tasks.specs.FileLimits.{limit_of};
ghost use Rattle.command_tasks.specs.Loading.{Leaves, LeavesPart, Loads, IsLoadRefusal};
ghost use Rattle.command_tasks.specs.Wants.{want_of};
ghost use Rattle.command_tasks.specs.Private.SingleLoads.{AnswersOne, RefusesLoad};
ghost use Rattle.command_tasks.specs.LoadCounts.{CountsFault, KeepsCount};
ghost use Rattle.command_tasks.specs.declared.refusals.Refusal.TheVariants.{Load, Memory};

use crate::kinds::FileKind;
use crate::names::Name;
use crate::refusals::Refusal;
use flow_base::{Bytes, Files, List, LoadFault};
use std::alloc::Global;

/// A file that a command wants.
#[derive(Clone, Copy)]
pub struct Want<'a> {
    /// The name of the file.
    pub name: &'a str,
    /// What the file is for.
    pub kind: FileKind,
}

/// The refusal of a name whose load was answered by a fault.
fn refused(alloc: Global, name: &str, fault: LoadFault) -> Refusal
    ensures { RefusesLoad name.now fault result }
{
    if let LoadFault::Memory = fault {
        return Refusal::Memory;
    }
    let Ok(name) = Name::new(alloc, name) else {
        return Refusal::Memory;
    };
    match fault {
        LoadFault::Failed => Refusal::Load { name },
        LoadFault::TooLarge(number) => Refusal::TooLarge { name, number },
        LoadFault::Memory => Refusal::Memory,
    }
}

/// The bytes of a file.
fn load<F: Files>(alloc: Global, files: &mut F, want: Want) -> Result<Bytes, Refusal>
    ensures answers { AnswersOne (F.told files.old) (want_of want.entry) result }
    ensures counts { F.told files.new ≡ option_map after_load (F.told files.old) }
    ensures cause { CountsFault result (F.faults files.old) (F.faults files.new) }
    ensures kept { KeepsCount result (F.faults files.old) (F.faults files.new) }
    ensures faults { F.faults files.old ≤ F.faults files.new }
    ensures limit { IfOk result (λ file. length file ≤ limit_of want.entry.kind) }
    ensures refused { IfErr result (λ refusal. refusal ≢ Memory → IsLoadRefusal (want_of want.entry ∷ []) refusal) }
{
    match files.load(alloc, want.name, want.kind.limit()) {
        Ok(file) => Ok(file),
        Err(fault) => Err(refused(alloc, want.name, fault)),
    }
}

/// The bytes of all files, loaded in order up to the first that is refused.
pub fn load_all<F: Files>(
    alloc: Global,
    files: &mut F,
    wants: &[Want],
) -> Result<List<Bytes>, Refusal>
    ensures loads { result ≢ Err Memory → Loads (F.told files.old) (map want_of wants.now) result }
    ensures leaves { result ≢ Err Memory → Leaves (F.told files.old) (map want_of wants.now) (F.told files.new) }
    ensures part { LeavesPart (F.told files.old) (map want_of wants.now) (F.told files.new) }
    ensures cause { CountsFault result (F.faults files.old) (F.faults files.new) }
    ensures kept { KeepsCount result (F.faults files.old) (F.faults files.new) }
    ensures faults { F.faults files.old ≤ F.faults files.new }
{
    let mut loaded = List::new(alloc);
    for want in wants {
        let file = load(alloc, files, *want)?;
        loaded.push(file)?;
    }
    Ok(loaded)
}
