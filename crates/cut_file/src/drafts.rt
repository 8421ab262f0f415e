use crate::cuts::Cut;

/// What the lines in order say, up to any of them.
#[derive(Drop)]
pub enum Draft {
    /// No line.
    Nothing,
    /// The first line: the version.
    Versioned(u8),
    /// The first two lines: the version and the secret's length.
    Sized(u8, u32),
    /// The first three lines and perhaps more.
    Listed(Cut),
    /// All lines.
    Whole(Cut),
}
