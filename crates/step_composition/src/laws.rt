ghost use Rattle.step_composition.specs.Laws.{PartsLaw, SlotsLaw};

/// The parts of a step, called in the order of the slots, make the step, and the slots of a turn pass the values of the
/// parts: an instruction's, and a call's with each byte that it reads or writes. It does nothing when it is called.
pub fn parts_compose()
    ensures parts { PartsLaw }
    ensures slots { SlotsLaw }
{}
