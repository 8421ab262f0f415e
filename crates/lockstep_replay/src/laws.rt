ghost use Rattle.lockstep_replay.specs.AcceptanceLaws.{DoneLaw, PrefixesLaw, CrossesLaw, BoundLaw, GreaterLimitsLaw};
ghost use Rattle.lockstep_replay.specs.VerdictLaws.{AcceptedLaw, AcceptsLaw, RejectedLaw, CausesLaw};

/// The replay of an accepted secret's crossing bits is done with the output of its real run; two strings on which the
/// replay of one task is done are equal, or neither is a prefix of the other; different crossing strings of accepted
/// secrets are prefix-free and weigh at most 2 to the budget; at most that many different outputs arise; and greater
/// limits accept no less. It does nothing when it is called.
pub fn accepted_runs_are_bounded()
    ensures done { DoneLaw }
    ensures prefixes { PrefixesLaw }
    ensures crosses { CrossesLaw }
    ensures bound { BoundLaw }
    ensures greater { GreaterLimitsLaw }
{}

/// A verdict that accepts names the crossing bits and the output of an accepted secret; the verdict on an accepted
/// secret is these; what is rejected is not accepted, whatever the output; and the reason of a rejection holds of the
/// two runs, no condition failing at an earlier turn. It does nothing when it is called.
pub fn verdicts_are_acceptance()
    ensures accepted { AcceptedLaw }
    ensures accepts { AcceptsLaw }
    ensures rejected { RejectedLaw }
    ensures causes { CausesLaw }
{}
