/// What a guest does next.
#[derive(Clone, Copy)]
pub enum TurnKind {
    /// It enters the region at this place in the list, counted from 0.
    Enter(u32),
    /// It leaves the entered region.
    Leave,
    /// It runs one instruction.
    Step,
}
