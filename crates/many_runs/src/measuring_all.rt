ghost use Rattle.std.specs.Prelude.{◌≡◌, ◌<◌, ◌≤◌, IfErr, IfOk, length, true};
ghost use Rattle.std.specs.List.{AllByRecursion, list_all};
ghost use Rattle.acceptance_law.specs.MeasuredLaws.{AreInputs};
ghost use Rattle.cut_file.specs.Pictures.{cut_picture};
ghost use Rattle.elf32_loader.specs.Images.{image_picture};
ghost use Rattle.enclosure_regions.specs.Regions.{are_regions};
ghost use Rattle.measuring.specs.Accepting.{HasShortText};
ghost use Rattle.many_runs.specs.Accepting.{AreAcceptedByFolds, AreAcceptedByTheCut};
ghost use Rattle.many_runs.specs.Causes.{HasManyCause};
ghost use Rattle.many_runs.specs.Following.{is_short_secret};
ghost use Rattle.many_runs.specs.Measures.{MeasuresTogether, setup_of};

use crate::faults::ManyFault;
use crate::following_all::{common_length, record_runs};
use crate::many::Many;
use crate::uniting::unite;
use crate::weighing_all::weigh_all;
use acceptance_law::tell_inputs;
use elf32_loader::Image;
use enclosure_regions::Regions;
use flow_base::Bytes;
use measuring::Setup;
use std::alloc::Global;
use transfer_rules::RuleBook;

/// Tells that a program, its public input, secrets and regions are as files have them. It does nothing.
fn tell_all_inputs(image: &Image, public: &Bytes, secrets: &[Bytes], regions: &Regions)
    ensures { AllByRecursion (AreInputs (image_picture image.now) public.now regions.now.items) secrets.now }
{
    let mut rest = secrets;
    while let [secret, more @ ..] = rest {
        tell_inputs(image, public, secret, regions);
        rest = more;
    }
}

/// The measure of several runs together, or why they have none; see [`measure_all`].
fn measure_runs(alloc: Global, setup: &Setup<'_>, secrets: &[Bytes]) -> Result<Many, ManyFault>
    requires few { length secrets.now ≤ 64 }
    requires short { list_all is_short_secret secrets.now ≡ true }
    requires regions { are_regions setup.now.regions.now.items ≡ true }
    requires turns { setup.now.turns ≤ 20000000 }
    ensures ok { IfOk result (λ many. MeasuresTogether (setup_of setup.now.book.now.table
        (image_picture setup.now.image.now) setup.now.public.now setup.now.regions.now.items setup.now.turns)
        secrets.now many) }
    ensures err { IfErr result (λ fault. HasManyCause (setup_of setup.now.book.now.table
        (image_picture setup.now.image.now) setup.now.public.now setup.now.regions.now.items setup.now.turns)
        secrets.now fault) }
{
    let secret_len = common_length(secrets)?;
    let recordings = record_runs(alloc, setup, secrets)?;
    let union = unite(alloc, recordings.as_slice())?;
    weigh_all(alloc, secret_len, union)
}

/// Measures the runs of a program on a public input and several secrets together, with these regions, by the mask rules
/// of a book, each through at most `turns` turns: how many bits of the secret can have flowed to what is seen of any of
/// them, and one cut of all of them (McCamant and Ernst, PLDI 2008). At the v-th visit of a point the graph and the cut
/// have the bits that the masks of any of the runs have at their v-th visit there. Each of the secrets is accepted with
/// that cut, and with its fold, within that number of bits and the same limit of turns. The text of the cut has at most
/// 64 MiB, and that of its fold too.
///
/// The secrets are 1 to 64, each has at most 65,536 bytes, and the turns are at most 20,000,000. Of the errors the first
/// in the order of [`ManyFault`] comes: `Length` where not all have one length, `Run` where a run is not measured,
/// `UnitedLimit` where the graph of all runs exceeds a limit, and `BudgetLimit` where its maximum flow is more than
/// 1,048,576; `Memory` where there is not enough.
pub fn measure_all(
    alloc: Global,
    image: &Image,
    public: &Bytes,
    secrets: &[Bytes],
    regions: &Regions,
    book: &RuleBook,
    turns: u32,
) -> Result<Many, ManyFault>
    requires some { 0 < length secrets.now }
    requires few { length secrets.now ≤ 64 }
    requires short { list_all is_short_secret secrets.now ≡ true }
    requires turns { turns ≤ 20000000 }
    ensures ok { IfOk result (λ many. MeasuresTogether
        (setup_of book.now.table (image_picture image.now) public.now regions.now.items turns) secrets.now many) }
    ensures err { IfErr result (λ fault. HasManyCause
        (setup_of book.now.table (image_picture image.now) public.now regions.now.items turns) secrets.now fault) }
    ensures accepted { IfOk result (λ many.
        AreAcceptedByTheCut (image_picture image.now) public.now regions.now.items secrets.now turns many) }
    ensures folds { IfOk result (λ many.
        AreAcceptedByFolds (image_picture image.now) public.now regions.now.items secrets.now turns many) }
    ensures short { IfOk result (λ many. HasShortText (cut_picture many.cut)) }
{
    let setup = Setup {
        image,
        public,
        regions,
        book,
        turns,
    };
    tell_all_inputs(image, public, secrets, regions);
    measure_runs(alloc, &setup, secrets)
}
