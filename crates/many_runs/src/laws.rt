ghost use Rattle.many_runs.specs.Laws.{MeasuredTogetherHaveNoCause};

/// By the mask rules of table 1, 2 or 3 runs that are measured together have no cause not to be, but for want of
/// memory. It does nothing when it is called.
pub fn measured_together_have_no_cause()
    ensures { MeasuredTogetherHaveNoCause }
{}
