use crate::judgings::Judging;

/// What is said of secrets that are to be judged, beside their files.
#[derive(Clone, Copy)]
pub struct CheckSettings {
    /// The number of bits that may cross, at most 1,048,576.
    pub budget: u32,
    /// The number of turns within which a run exits.
    pub turns: u32,
    /// By what they are judged; a table is 1, 2 or 3.
    pub judging: Judging,
}

/// What is said of all secrets whose outputs are to be bounded, beside their files.
#[derive(Clone, Copy)]
pub struct BoundSettings {
    /// The number of bits that may cross, at most 1,048,576.
    pub budget: u32,
    /// The number of turns within which a run exits.
    pub turns: u32,
    /// The table of the mask rules, 1, 2 or 3.
    pub table: u32,
    /// The number of walks that are made at most, 1 to 1,048,576.
    pub paths: u32,
    /// Whether the public input is unknown too, with its length alone given.
    pub any_public: bool,
    /// Whether each pattern of outputs is listed.
    pub listed: bool,
}

/// What is said of a run that is to be measured, beside its files.
#[derive(Clone, Copy)]
pub struct RunSettings {
    /// The number of turns within which it exits, at most 20,000,000.
    pub turns: u32,
    /// The table of the mask rules by which it is measured, 1, 2 or 3.
    pub table: u32,
}
