ghost use Rattle.acceptance_law.specs.CrossingLaws.{CrossingLaw};
ghost use Rattle.acceptance_law.specs.GraphLaws.{ClosedEventsLaw, ClosedSideLaw, CapacityLaw, SplitBitsLaw, CutCoversLaw};
ghost use Rattle.acceptance_law.specs.GuestLaws.{GuestStartLaw, GuestTurnLaw, ProperEventsLaw};

/// A side that no link of the graph of a run leaves is closed for each event of the run. It does nothing when it is
/// called.
pub fn sides_are_closed_for_events()
    ensures closed { ClosedEventsLaw }
{}

/// No link of some events leaves a side of their graph, and the side's capacity is the sum of the bits that pass its
/// split points. It does nothing when it is called.
pub fn sides_are_closed_for_links()
    ensures closed { ClosedSideLaw }
    ensures capacity { CapacityLaw }
    ensures split { SplitBitsLaw }
{}

/// The cut of a run and a side of its graph covers the run by this side. It does nothing when it is called.
pub fn cuts_of_runs_cover()
    ensures covers { CutCoversLaw }
{}

/// The values with which a program starts are a guest's, each turn keeps what they are like, and the events of a run by
/// sound answers are proper. It does nothing when it is called.
pub fn guests_stay_guests()
    ensures start { GuestStartLaw }
    ensures guests { GuestTurnLaw }
    ensures events { ProperEventsLaw }
{}

/// Under the cut of a measured run and a side of its graph no more bits cross than the side's capacity. It does nothing
/// when it is called.
pub fn cuts_of_runs_cross()
    ensures crossing { CrossingLaw }
{}
