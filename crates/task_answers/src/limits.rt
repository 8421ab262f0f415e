ghost use Rattle.std.specs.Prelude.{◌≤◌};

/// What a run may use of bits and turns.
#[derive(Clone, Copy)]
pub struct Limits {
    /// The number of bits that may cross, at most 1,048,576.
    pub budget: u32,
    /// The number of turns within which the run exits.
    pub turns: u32,
    ghost few: { budget ≤ 1048576 },
}
