ghost use Rattle.rv32im_machine.specs.Laws.{NextLaw, StandsLaw, VisitLaw};

/// While the values that a turn passes go on as they are, what comes next is the visit after them, and at last the end
/// that the step reaches. It does nothing when it is called.
pub fn next_follows_the_step()
    ensures visits { VisitLaw }
    ensures end { NextLaw }
{}

/// A machine that has exited or is stopped stands still. It does nothing when it is called.
pub fn ended_machines_stand_still()
    ensures { StandsLaw }
{}
