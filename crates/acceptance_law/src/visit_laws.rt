ghost use Rattle.acceptance_law.specs.VisitLaws.{FewVisitsLaw, FitCutsLaw, KnownSlotsLaw, OutputVisitsLaw};

/// Whatever the mask rules answer, a run passes points at the slots of turns alone: an output is of a register x1 to
/// x31 or of a range 0 to 63. It does nothing when it is called.
pub fn runs_pass_known_slots()
    ensures slots { KnownSlotsLaw }
{}

/// In at most 20,000,000 turns, with a secret of at most 65,536 bytes, a run passes a point that is no output of a
/// region fewer than 2^32 times. It does nothing when it is called.
pub fn runs_visit_points_seldom()
    ensures visits { FewVisitsLaw }
{}

/// A run passes an output of a region no more often than bits pass there, which are the output's capacity in the
/// run's graph. It does nothing when it is called.
pub fn outputs_have_their_visits()
    ensures visits { OutputVisitsLaw }
{}

/// In at most 20,000,000 turns, with a secret of at most 65,536 bytes, a run passes points as a cut can hold them: at the
/// slots of turns, each that is no output of a region fewer than 2^32 times, and each output no more often than bits pass
/// there. It does nothing when it is called.
pub fn runs_fit_cuts()
    ensures fits { FitCutsLaw }
{}
