ghost use Rattle.acceptance_law.specs.FoldLaws.{FoldedLaw};
ghost use Rattle.acceptance_law.specs.Laws.{CoveredLaw};
ghost use Rattle.acceptance_law.specs.MeasuredLaws.{MeasuredLaw};
ghost use Rattle.acceptance_law.specs.ProperLaws.{ProperTurnsLaw};
ghost use Rattle.acceptance_law.specs.RunLaws.{FewRunsLaw};

/// The turn of each instruction is proper. It does nothing when it is called.
pub fn turns_are_proper()
    ensures proper { ProperTurnsLaw }
{}

/// A run that a cut covers by a side of its graph is accepted with that cut, within every budget that its crossing bits
/// have. It does nothing when it is called.
pub fn covered_runs_are_accepted()
    ensures covered { CoveredLaw }
{}

/// A run is accepted with the cut of it and of a side of its graph, within the side's capacity. It does nothing when it
/// is called.
pub fn measured_runs_are_accepted()
    ensures measured { MeasuredLaw }
{}

/// A run is accepted with the fold of the cut of it and of a side of its graph, within the side's capacity. It does
/// nothing when it is called.
pub fn folded_cuts_are_accepted()
    ensures folded { FoldedLaw }
{}

/// The cut of a run and a side of its graph has at most one point for each bit of the side's capacity, and two runs
/// of masks for each bit beside one for each point. It does nothing when it is called.
pub fn cuts_have_few_runs()
    ensures few { FewRunsLaw }
{}
