use flow_base::Bytes;

/// An output with its free bits, which are 0 in it: it stands for each output that agrees with it outside of them.
#[derive(Drop)]
pub struct Pattern {
    /// The bytes written, in order.
    pub bytes: Bytes,
    /// The exit status.
    pub status: u8,
    /// The free bits of each byte.
    pub byte_masks: Bytes,
    /// The free bits of the status.
    pub status_mask: u8,
}
