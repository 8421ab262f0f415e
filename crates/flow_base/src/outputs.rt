use crate::lists::Bytes;

/// What a run that exits has written, and its exit status.
#[derive(Drop)]
pub struct Output {
    /// The bytes written, in order.
    pub bytes: Bytes,
    /// The exit status.
    pub status: u8,
}
