ghost use Rattle.max_flow.specs.Laws.{WeakDuality, EqualIsBest};

/// No flow has a greater value than the capacity of any side. It does nothing when it is called.
pub fn no_flow_exceeds_a_side()
    ensures { WeakDuality }
{}

/// Where a flow's value is the capacity of a side, no flow has a greater value and no side has a smaller capacity. It
/// does nothing when it is called.
pub fn equal_is_best()
    ensures { EqualIsBest }
{}
