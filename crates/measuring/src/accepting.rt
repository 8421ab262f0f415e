ghost use Rattle.std.specs.Prelude.{◌≤◌, ◌*◌, length, IfErr, IfOk};
ghost use Rattle.cut_file.specs.Pictures.{cut_picture};
ghost use Rattle.elf32_loader.specs.Images.{image_picture};
ghost use Rattle.region_machine.specs.Starts.{guest};
ghost use Rattle.run_labels.specs.Runs.{unlabelled};
ghost use Rattle.measuring.specs.Accepting.{HasShortText, HasSmallCut, IsAcceptedByFolds, IsAcceptedByItsCut};
ghost use Rattle.measuring.specs.Measures.{HasCause, Measures};

use crate::measured::Measured;
use crate::weighing::measure_run;
use acceptance_law::tell_inputs;
use elf32_loader::Image;
use enclosure_regions::Regions;
use flow_base::Bytes;
use run_labels::MeasureFault;
use std::alloc::Global;
use transfer_rules::RuleBook;

/// Measures the run of a program on a public input and a secret, with these regions, by the mask rules of a book, through
/// at most `turns` turns: how many bits of the secret can have flowed to what is seen of it, and where they can be cut
/// (McCamant and Ernst, PLDI 2008). The secret is accepted with that cut, and with its fold, within that number of bits,
/// which are at most eight for each of its bytes; the cut has at most one point for each of these bits, and two runs
/// of masks for each bit beside one for each point. So the text of the cut has at most 64 MiB, and that of its fold too.
///
/// The secret has at most 65,536 bytes, and the turns are at most 20,000,000. Of the errors the first turn in which one
/// holds decides; `TurnLimit` where the run does not exit within the limit, `GraphLimit` where it does and its graph
/// exceeds a limit, and `Memory` where there is not enough.
pub fn measure(
    alloc: Global,
    image: &Image,
    public: &Bytes,
    secret: &Bytes,
    regions: &Regions,
    book: &RuleBook,
    turns: u32,
) -> Result<Measured, MeasureFault>
    requires short { length secret.now ≤ 65536 }
    requires few { turns ≤ 20000000 }
    ensures ok { IfOk result (λ measured. Measures book.now.table regions.now.items
        (unlabelled (guest (image_picture image.now) public.now secret.now)) (length secret.now) turns measured) }
    ensures err { IfErr result (λ fault. HasCause book.now.table regions.now.items
        (unlabelled (guest (image_picture image.now) public.now secret.now)) turns fault) }
    ensures accepted { IfOk result (λ measured.
        IsAcceptedByItsCut (image_picture image.now) public.now regions.now.items secret.now turns measured) }
    ensures folds { IfOk result (λ measured.
        IsAcceptedByFolds (image_picture image.now) public.now regions.now.items secret.now turns measured) }
    ensures few { IfOk result (λ measured. measured.value ≤ 8 * length secret.now) }
    ensures runs { IfOk result (λ measured. HasSmallCut measured) }
    ensures short { IfOk result (λ measured. HasShortText (cut_picture measured.cut)) }
{
    tell_inputs(image, public, secret, regions);
    measure_run(alloc, image, public, secret, regions, book, turns)
}
