ghost use Rattle.taint_check.specs.Laws.{CleanLaw, OneVerdict};

/// A secret of which a check with one machine is clean is accepted, with the same bits and the same output, whatever the
/// mask rules answered that was sound. It does nothing when it is called.
pub fn clean_secrets_are_accepted()
    ensures clean { CleanLaw }
{}

/// By the mask rules of table 1, 2 or 3 a check of a secret with one machine has one verdict. It does nothing when
/// it is called.
pub fn verdicts_are_one()
    ensures one { OneVerdict }
{}
