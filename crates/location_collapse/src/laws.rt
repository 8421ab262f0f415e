ghost use Rattle.location_collapse.specs.Laws.{GraphsExceed, MoreExceed};

/// No graph of events that exceed a limit is within the limits. It does nothing when it is called.
pub fn graphs_exceed()
    ensures { GraphsExceed }
{}

/// Events that exceed a limit exceed it whatever comes after them. It does nothing when it is called.
pub fn more_events_exceed()
    ensures { MoreExceed }
{}
