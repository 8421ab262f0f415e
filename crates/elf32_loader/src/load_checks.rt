ghost use Rattle.std.specs.Prelude.{◌≡◌, ◌^◌, ◌<◌, IfErr, IfOk, OnOk, length};
ghost use Rattle.elf32_loader.specs.FaultTable.{HasCleanLoads, HasEntryOutside, HasHighBase, HasNoFault, HasNoLoad, HasOverlap, HasRangeFault, IsDynamic, IsFileBase, IsLowestLoad};
ghost use Rattle.elf32_loader.specs.FirstFault.{AnswersBase, AnswersDynamic, AnswersOverlap, AnswersRange, IsFirstFault, IsLeast, LoadRows};
ghost use Rattle.elf32_loader.specs.Headers.{HasTable, entry_of, header_at, header_count, header_size};
ghost use Rattle.elf32_loader.specs.Segments.{rounded_down};

use crate::ElfFault;
use crate::fields::{count_of, entry_from, header_of, size_from};
use crate::header_checks::check_header;
use crate::searching::{
    first_dynamic, first_out_of_range, first_overlap, is_entry_loaded, lowest_load,
};

/// The highest base of an image. Guest memory then ends at or below 0xfffff000, and with it each segment.
const HIGHEST_BASE: u32 = 0xfeff_f000;

/// The size of a page, of which a base is a multiple.
const PAGE_SIZE: u32 = 4096;

/// That the file wants no dynamic linker.
fn check_dynamic(file: &[u8]) -> Result<(), ElfFault>
    requires { HasTable file.now }
    ensures ok { OnOk result (¬ IsDynamic file.now) }
    ensures err { IfErr result (λ fault. IsDynamic file.now × AnswersDynamic file.now fault) }
{
    match first_dynamic(file) {
        Some(index) => Err(ElfFault::Dynamic {
            index: u32::from(index),
        }),
        None => Ok(()),
    }
}

/// The first load of those with the lowest address.
fn check_lowest(file: &[u8]) -> Result<u16, ElfFault>
    requires { HasTable file.now }
    ensures ok { IfOk result (λ lowest. IsLeast (IsLowestLoad file.now) lowest) }
    ensures err { IfErr result (λ fault. HasNoLoad file.now
        × (fault ≡ ElfFault.Headers (header_count file.now) (header_size file.now) 0)) }
{
    match lowest_load(file) {
        Some(lowest) => Ok(lowest),
        None => Err(ElfFault::Headers {
            count: u32::from(count_of(file)),
            size: u32::from(size_from(file)),
            loads: 0,
        }),
    }
}

/// That each load is in range.
fn check_ranges(file: &[u8], base: u32) -> Result<(), ElfFault>
    requires has_table { HasTable file.now }
    requires size { length file.now < 2 ^ 32 }
    requires base { IsFileBase file.now base }
    ensures ok { OnOk result (¬ HasRangeFault file.now) }
    ensures err { IfErr result (λ fault. HasRangeFault file.now × AnswersRange file.now fault) }
{
    match first_out_of_range(file, base) {
        Some(index) => Err(ElfFault::SegmentRange {
            index: u32::from(index),
        }),
        None => Ok(()),
    }
}

/// That the base is not too high.
fn check_base(file: &[u8], lowest: u16, base: u32) -> Result<(), ElfFault>
    requires lowest { IsLeast (IsLowestLoad file.now) lowest }
    requires base { IsFileBase file.now base }
    ensures ok { OnOk result (¬ HasHighBase file.now) }
    ensures err { IfErr result (λ fault. HasHighBase file.now × AnswersBase file.now fault) }
{
    if base > HIGHEST_BASE {
        return Err(ElfFault::SegmentRange {
            index: u32::from(lowest),
        });
    }
    Ok(())
}

/// That no two loads share an address.
fn check_overlaps(file: &[u8]) -> Result<(), ElfFault>
    requires { HasTable file.now }
    ensures ok { OnOk result (¬ HasOverlap file.now) }
    ensures err { IfErr result (λ fault. HasOverlap file.now × AnswersOverlap file.now fault) }
{
    match first_overlap(file) {
        Some((first, second)) => Err(ElfFault::Overlap {
            a: u32::from(first),
            b: u32::from(second),
        }),
        None => Ok(()),
    }
}

/// That an instruction may stand at the entry, and that a load does.
fn check_entry(file: &[u8]) -> Result<(), ElfFault>
    requires { HasTable file.now }
    ensures ok { OnOk result (¬ HasEntryOutside file.now) }
    ensures err { IfErr result (λ fault. HasEntryOutside file.now
        × (fault ≡ ElfFault.EntryOutside (entry_of file.now))) }
{
    let entry = entry_from(file);
    if entry % 4 != 0 || !is_entry_loaded(file) {
        return Err(ElfFault::EntryOutside { entry });
    }
    Ok(())
}

/// The lowest address of a load, rounded down to a page.
fn base_of(file: &[u8], lowest: u16) -> u32
    requires has_table { HasTable file.now }
    requires lowest { IsLowestLoad file.now lowest }
    ensures { IsFileBase file.now result }
{
    header_of(file, lowest).address / PAGE_SIZE * PAGE_SIZE
}

/// The base of guest memory, or the first fault of the program headers.
fn check_loads(file: &[u8]) -> Result<u32, ElfFault>
    requires has_table { HasTable file.now }
    requires size { length file.now < 2 ^ 32 }
    ensures ok { IfOk result (λ base. IsFileBase file.now base × HasCleanLoads file.now) }
    ensures err { IfErr result (λ fault. LoadRows file.now fault) }
{
    check_dynamic(file)?;
    let lowest = check_lowest(file)?;
    let base = base_of(file, lowest);
    check_ranges(file, base)?;
    check_base(file, lowest, base)?;
    check_overlaps(file)?;
    check_entry(file)?;
    Ok(base)
}

/// The base of guest memory, or the first fault of a program file.
pub fn check_file(file: &[u8]) -> Result<u32, ElfFault>
    requires { length file.now < 2 ^ 32 }
    ensures ok { IfOk result (λ base. IsFileBase file.now base × HasNoFault file.now) }
    ensures err { IfErr result (λ fault. IsFirstFault file.now fault) }
{
    check_header(file)?;
    check_loads(file)
}
