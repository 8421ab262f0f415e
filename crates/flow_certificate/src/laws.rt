ghost use Rattle.flow_certificate.specs.Laws.{TextsAreOne, TextsHaveNoFailure};

/// Each text is that of one certificate at most, so what is written is read again as it was, and no line of a text
/// fails. It does nothing when it is called.
pub fn texts_are_one()
    ensures one { TextsAreOne }
    ensures none { TextsHaveNoFailure }
{}
