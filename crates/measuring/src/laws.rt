ghost use Rattle.measuring.specs.Laws.{MeasuredHaveNoCause, RefusalsAreDecided, RunsAreDecided};

/// By the mask rules of table 1, 2 or 3 a run is decided, turn by turn: its labels, its events and what refuses it.
/// So a run that is measured has no cause to be refused, but for lack of memory. It does nothing when it is called.
pub fn measured_runs_have_no_cause()
    ensures runs { RunsAreDecided }
    ensures refusals { RefusalsAreDecided }
    ensures measured { MeasuredHaveNoCause }
{}
