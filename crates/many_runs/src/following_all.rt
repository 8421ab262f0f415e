ghost use Rattle.std.specs.Prelude.{◌≡◌, ◌≤◌, ℕ, IfErr, IfOk, List as Seq, length, true};
ghost use Rattle.std.specs.List.{list_all};
ghost use Rattle.elf32_loader.specs.Images.{image_picture};
ghost use Rattle.measuring.specs.Measures.{HasCause};
ghost use Rattle.many_runs.specs.Following.{AreFollowed, IsFollowed, IsLengthFault, IsRunFault, is_short_secret, many_fault_of};
ghost use Rattle.many_runs.specs.Measures.{HaveLength, Setup as TheSetup, first_length, setup_of, start_on};

use crate::faults::ManyFault;
use crate::uniting::unite;
use flow_base::{Bytes, List, NoMemory};
use measuring::{LabelledMemory, Recording, RunEnd, Setup, follow_in};
use run_labels::MeasureFault;
use std::alloc::Global;

/// So many recordings of runs are kept at once, unless their graph together exceeds a limit.
const MOST_KEPT: usize = 8;

/// The length of all secrets, in bytes, 0 where there is none.
/// `Length` where they have more than one.
pub(crate) fn common_length(secrets: &[Bytes]) -> Result<u32, ManyFault>
    requires few { length secrets.now ≤ 64 }
    requires short { list_all is_short_secret secrets.now ≡ true }
    ensures ok { IfOk result (λ secret_len. secret_len ≡ first_length secrets.now) }
    ensures alike { IfOk result (λ secret_len. HaveLength (first_length secrets.now) secrets.now) }
    ensures err { IfErr result (λ fault. IsLengthFault secrets.now fault) }
{
    let [secret, ..] = secrets else {
        return Ok(0);
    };
    let first = secret.len() as u32;
    for index in 0..secrets.len() {
        let got = secrets[index].len() as u32;
        if got != first {
            return Err(ManyFault::Length {
                index: index as u32 + 1,
                first,
                got,
            });
        }
    }
    Ok(first)
}

/// The recording of the run on a secret, in the memory of another one, and this for the next one.
fn record_run(
    memory: LabelledMemory,
    alloc: Global,
    setup: &Setup<'_>,
    secret: &Bytes,
) -> Result<(Recording, LabelledMemory), MeasureFault>
    requires { length secret.now ≤ 65536 }
    ensures ok { IfOk result (λ made. IsFollowed (setup_of setup.now.book.now.table (image_picture setup.now.image.now)
        setup.now.public.now setup.now.regions.now.items setup.now.turns) secret.now made.0) }
    ensures err { IfErr result (λ fault. HasCause setup.now.book.now.table setup.now.regions.now.items
        (start_on (setup_of setup.now.book.now.table (image_picture setup.now.image.now) setup.now.public.now
        setup.now.regions.now.items setup.now.turns) secret.now) setup.now.turns fault) }
{
    let Ok((end, used)) = follow_in(memory, alloc, setup, secret) else {
        return Err(MeasureFault::Memory);
    };
    match end {
        RunEnd::Exited(exit) => {
            if exit.recording.collapse.is_full {
                Err(MeasureFault::GraphLimit)
            } else {
                Ok((exit.recording, used))
            }
        }
        RunEnd::Refused(fault) => Err(fault),
    }
}

/// What is answered where the run with this index is not measured.
fn many_fault(index: u32, fault: MeasureFault) -> ManyFault
    ensures { result ≡ many_fault_of index fault }
{
    match fault {
        MeasureFault::Memory => ManyFault::Memory,
        _ => ManyFault::Run { index, fault },
    }
}

/// The same recordings; or where they are as many as are kept, and the graph of all of them exceeds no limit, a recording of
/// what they have together in their place.
fn gathered(alloc: Global, recordings: List<Recording>) -> Result<List<Recording>, NoMemory>
    ensures { IfOk result (λ after. (setup : TheSetup) (secrets : Seq (Seq ℕ)) → AreFollowed setup secrets recordings →
        AreFollowed setup secrets after) }
{
    if recordings.len() != MOST_KEPT {
        return Ok(recordings);
    }
    let union = unite(alloc, recordings.as_slice())?;
    if union.collapse.is_full {
        return Ok(recordings);
    }
    let mut one = List::new(alloc);
    one.push(union)?;
    Ok(one)
}

/// What the recordings of the runs on all secrets have together, in a few recordings. The runs are made one after another
/// in the same memory.
/// `Run` where one is not measured, for another reason than lack of memory.
pub(crate) fn record_runs(
    alloc: Global,
    setup: &Setup<'_>,
    secrets: &[Bytes],
) -> Result<List<Recording>, ManyFault>
    requires few { length secrets.now ≤ 64 }
    requires short { list_all is_short_secret secrets.now ≡ true }
    ensures ok { IfOk result (λ recordings. AreFollowed (setup_of setup.now.book.now.table
        (image_picture setup.now.image.now) setup.now.public.now setup.now.regions.now.items setup.now.turns)
        secrets.now recordings) }
    ensures err { IfErr result (λ fault. IsRunFault (setup_of setup.now.book.now.table
        (image_picture setup.now.image.now) setup.now.public.now setup.now.regions.now.items setup.now.turns)
        secrets.now fault) }
{
    let mut recordings = List::new(alloc);
    let mut memory = LabelledMemory::new(alloc, setup.image.base)?;
    for index in 0..secrets.len() {
        match record_run(memory, alloc, setup, &secrets[index]) {
            Ok((recording, used)) => {
                memory = used;
                recordings.push(recording)?;
                recordings = gathered(alloc, recordings)?;
            }
            Err(fault) => return Err(many_fault(index as u32 + 1, fault)),
        }
    }
    Ok(recordings)
}
