ghost use Rattle.std.specs.Prelude.{◌≡◌, ◌≢◌, ◌<◌, ◌^◌, IfErr, IfOk, IsTrue, length, map, None, Some, ◌+◌, ◌≤◌};
ghost use Rattle.elf32_loader.specs.Images.{image_picture};
ghost use Rattle.enclosure_regions.specs.Regions.{ids_of};
ghost use Rattle.std.specs.List.{AllByRecursion};
ghost use Rattle.flow_base.specs.Guests.{memory_size};
ghost use Rattle.region_learn.specs.Private.Books.{BookOf, are_bare, IsFresh, IsNew, have_base, numbers_of};
ghost use Rattle.region_learn.specs.Private.Declarations.{IsDraft};
ghost use Rattle.region_learn.specs.LearnAnswers.{Grants, RefusesToLearn, declaration_fault, run_fault};
ghost use Rattle.region_machine.specs.Starts.{guest};
ghost use Rattle.region_learn.specs.Minimal.{NoByteCanGo, NoOutputIsKept, NoRegisterCanGo};
ghost use Rattle.region_learn.specs.Unbroken.{IsTight, RunsUnbroken};
ghost use Rattle.region_learn.specs.Learning.{run_of};
ghost use Rattle.rv32im_machine.specs.declared.stepping.Stepped.TheVariants.{Ran as RanMode};
ghost use Rattle.region_learn.specs.Written.{Run, bare as bare_of};

use crate::byte_marks::ByteMarks;
use crate::checks::{regions_fault, text_fault};
use crate::declarations::declare_all;
use crate::faults::LearnFault;
use crate::notes::Notes;
use crate::runs::run;
use crate::writing::write_regions;
use elf32_loader::Image;
use enclosure_regions::{Region, Regions};
use flow_base::{Bytes, List, NoMemory};
use region_machine::{MarkedRegions, OUTPUT_LIMIT};
use rv32im_machine::Machine;
use std::alloc::Global;

/// A region by its number and its addresses alone.
fn bare(alloc: Global, region: &Region) -> Region
    ensures { result ≡ bare_of region.now }
{
    Region {
        id: region.id,
        enter: region.enter,
        leave: region.leave,
        outs: List::new(alloc),
        keep: List::new(alloc),
        ranges: List::new(alloc),
    }
}

fn bare_items(alloc: Global, regions: &[Region]) -> Result<List<Region>, NoMemory>
    ensures { IfOk result (λ items. items ≡ map bare_of regions.now) }
{
    let mut items = List::new(alloc);
    for region in regions {
        items.push(bare(alloc, region))?;
    }
    Ok(items)
}

/// Regions by their numbers and addresses alone.
fn bare_regions(alloc: Global, regions: &Regions) -> Result<Regions, NoMemory>
    ensures { IfOk result (λ others. others.items ≡ map bare_of regions.now.items) }
{
    Ok(Regions {
        items: bare_items(alloc, regions.items.as_slice())?,
    })
}

/// Notes of a region, before the first turn.
fn new_notes(alloc: Global, region: u16, base: u32) -> Result<Notes, NoMemory>
    ensures { IfOk result (λ notes. IsFresh region base notes) }
{
    Ok(Notes {
        region,
        base,
        written: 0,
        changed: 0,
        bytes: ByteMarks::new(alloc)?,
    })
}

/// Notes of each region, before the first turn.
fn new_book(alloc: Global, regions: &[Region], base: u32) -> Result<List<Notes>, NoMemory>
    ensures numbers { IfOk result (λ book. numbers_of book ≡ ids_of regions.now) }
    ensures fresh { IfOk result (λ book. AllByRecursion (IsNew base) book) }
{
    let mut book = List::new(alloc);
    for region in regions {
        book.push(new_notes(alloc, region.id, base)?)?;
    }
    Ok(book)
}

/// Regions that are declared, if they are not too large.
fn checked(alloc: Global, bare: &Regions, declared: List<Region>) -> Result<Regions, LearnFault>
    requires same { map bare_of declared ≡ bare.now.items }
    requires drafts { AllByRecursion IsDraft declared }
    ensures items { IfOk result (λ regions. regions.items ≡ declared) }
    ensures fits { IfOk result (λ regions. declaration_fault declared ≡ None) }
    ensures fault { IfErr result (λ fault. fault ≢ LearnFault.Memory → declaration_fault declared ≡ Some fault) }
{
    match regions_fault(declared.as_slice()) {
        Some(fault) => return Err(fault),
        None => {}
    }
    let regions = Regions { items: declared };
    let text = write_regions(alloc, &regions)?;
    match text_fault(text.as_slice()) {
        Some(fault) => Err(fault),
        None => Ok(regions),
    }
}

/// The least declaration of regions, where the run is made and its notes are these.
fn declaration(
    alloc: Global,
    bare: &Regions,
    book: &[Notes],
    base: u32,
) -> Result<Regions, LearnFault>
    requires same { map bare_of bare.now.items ≡ bare.now.items }
    requires numbers { numbers_of book.now ≡ ids_of bare.now.items }
    requires base { IsTrue (have_base book.now base) }
    requires room { base + memory_size ≤ 4294967295 }
    ensures ok { IfOk result (λ regions. (run : Run) → run.regions ≡ bare.now.items →
        BookOf run.regions run.turns run.start book.now → run_fault run ≡ None → Grants run regions.items) }
    ensures tight { IfOk result (λ regions. (run : Run) → run.regions ≡ bare.now.items →
        run.start.setting.base ≡ base → BookOf run.regions run.turns run.start book.now →
        AllByRecursion (IsTight run) regions.items) }
    ensures err { IfErr result (λ fault. fault ≢ LearnFault.Memory → (run : Run) → run.regions ≡ bare.now.items →
        BookOf run.regions run.turns run.start book.now → run_fault run ≡ None → RefusesToLearn run fault) }
{
    let declared = declare_all(alloc, bare.items.as_slice(), book, base)?;
    match checked(alloc, bare, declared) {
        Ok(regions) => Ok(regions),
        Err(fault) => Err(fault),
    }
}

/// The least declaration of the regions of a run from this start on.
fn learn_from(
    alloc: Global,
    machine: &mut Machine,
    marked: &MarkedRegions,
    book: &mut [Notes],
    turns: u32,
) -> Result<Regions, LearnFault>
    requires bare { IsTrue (are_bare marked.now.regions.items) }
    requires same { map bare_of marked.now.regions.items ≡ marked.now.regions.items }
    requires book { BookOf marked.now.regions.items 0 machine.old book.old }
    requires ran { machine.old.control.mode ≡ RanMode }
    requires room { machine.old.setting.base + memory_size ≤ 4294967295 }
    ensures ok { IfOk result (λ learnt.
        Grants (record { regions = marked.now.regions.items; start = machine.old; turns = turns }) learnt.items) }
    ensures unbroken { IfOk result (λ learnt. RunsUnbroken learnt.items turns machine.old) }
    ensures registers { IfOk result (λ learnt. NoRegisterCanGo learnt.items turns machine.old) }
    ensures bytes { IfOk result (λ learnt. NoByteCanGo learnt.items turns machine.old) }
    ensures outputs { IfOk result (λ learnt. NoOutputIsKept learnt.items turns machine.old) }
    ensures err { IfErr result (λ fault. fault ≢ LearnFault.Memory →
        RefusesToLearn (record { regions = marked.now.regions.items; start = machine.old; turns = turns }) fault) }
{
    let base = machine.base();
    match run(machine, marked, book, turns) {
        Ok(()) => {}
        Err(fault) => return Err(fault),
    }
    match declaration(alloc, &marked.regions, book, base) {
        Ok(regions) => Ok(regions),
        Err(fault) => Err(fault),
    }
}

/// The least declaration of the regions of one run of a program on a public input and a secret of fewer than 2^32
/// bytes, within a limit of turns. Each region declares what its instructions write over the whole run, a write of the
/// value that is there among it: in `keep` the registers that had their value of the entry at every leave, in `outs` the
/// others, and the bytes as ranges without a base, of greatest length, ascending. Of the given regions only the numbers
/// and the addresses are used.
///
/// The run with the answer exits within the limit and breaks no region. With any one register left out, or any byte, it
/// breaks by the write of it, and with any one of `outs` moved to `keep` it breaks at a leave. Of another secret nothing
/// is said.
///
/// The error is the first stop of the run, a call inside a region before any other stop of its turn; that no turn within
/// the limit exits; or that the answer would have too many ranges, bytes or text. Lack of memory answers
/// [`LearnFault::Memory`].
pub fn learn(
    alloc: Global,
    image: &Image,
    public: &Bytes,
    secret: &Bytes,
    regions: &Regions,
    turns: u32,
) -> Result<Regions, LearnFault>
    requires { length secret.now < 2 ^ 32 }
    ensures ok { IfOk result (λ learnt.
        Grants (run_of (image_picture image.now) public.now secret.now regions.now.items turns) learnt.items) }
    ensures unbroken { IfOk result (λ learnt.
        RunsUnbroken learnt.items turns (guest (image_picture image.now) public.now secret.now).state) }
    ensures registers { IfOk result (λ learnt.
        NoRegisterCanGo learnt.items turns (guest (image_picture image.now) public.now secret.now).state) }
    ensures bytes { IfOk result (λ learnt.
        NoByteCanGo learnt.items turns (guest (image_picture image.now) public.now secret.now).state) }
    ensures outputs { IfOk result (λ learnt.
        NoOutputIsKept learnt.items turns (guest (image_picture image.now) public.now secret.now).state) }
    ensures err { IfErr result (λ fault. fault ≢ LearnFault.Memory →
        RefusesToLearn (run_of (image_picture image.now) public.now secret.now regions.now.items turns) fault) }
{
    let bare = bare_regions(alloc, regions)?;
    let mut book = new_book(alloc, bare.items.as_slice(), image.base)?.into_vec();
    let marked = MarkedRegions::new(alloc, bare)?;
    let mut machine = Machine::new(alloc, image, public, secret, OUTPUT_LIMIT)?;
    match learn_from(alloc, &mut machine, &marked, book.as_mut_slice(), turns) {
        Ok(regions) => Ok(regions),
        Err(fault) => Err(fault),
    }
}
