ghost use Rattle.region_learn.specs.Laws.{OneDeclaration};

/// A run has one least declaration at most. It does nothing when it is called.
pub fn declarations_are_one()
    ensures { OneDeclaration }
{}
