ghost use Rattle.cut_file.specs.Folds.{FoldsKeepMasks};
ghost use Rattle.cut_file.specs.CutLaws.{FaultsAreOne, MasksAreOfTheirPoints, MasksAreWithinWidths, TextsAreOne};
ghost use Rattle.cut_file.specs.CutLaws.{TextsHaveNoFault};
ghost use Rattle.cut_file.specs.TextLengths.{FoldsAreShort, TextsAreShort};

/// Each text is that of one cut at most, and each cut has one text. It does nothing when it is called.
pub fn texts_are_one()
    ensures { TextsAreOne }
{}

/// A file has one first fault at most, and none where it is the text of a cut. It does nothing when it is called.
pub fn faults_are_first()
    ensures one { FaultsAreOne }
    ensures none { TextsHaveNoFault }
{}

/// The mask of a cut at a point that it names is that of [`mask_at`](crate::mask_at), and each mask is within the width
/// of its slot. It does nothing when it is called.
pub fn masks_are_of_their_points()
    ensures point { MasksAreOfTheirPoints }
    ensures width { MasksAreWithinWidths }
{}

/// A cut and its [`fold`](crate::fold) have the same mask at each visit that the cut lists. It does nothing when it is
/// called.
pub fn folds_keep_masks()
    ensures { FoldsKeepMasks }
{}

/// The text of a cut of version 1 has at most 64 bytes, 11 more for each region to be skipped, 55 for each point and 22
/// for each run that a point lists; and the text of its [`fold`](crate::fold) has no more than that. It does nothing
/// when it is called.
pub fn texts_are_short()
    ensures text { TextsAreShort }
    ensures fold { FoldsAreShort }
{}
