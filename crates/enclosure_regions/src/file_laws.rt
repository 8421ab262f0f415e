ghost use Rattle.enclosure_regions.specs.FileLaws.{FaultsAreOne, FilesAreOne, SpelledHaveNoFault};

/// A region file spells one list of regions at most, or has one first fault at most, and not both: so the answer of
/// [`read_regions`](crate::read_regions), but for lack of memory, is the only one. It does nothing when it is called.
pub fn region_files_are_one()
    ensures regions { FilesAreOne }
    ensures faults { FaultsAreOne }
    ensures neither { SpelledHaveNoFault }
{}
