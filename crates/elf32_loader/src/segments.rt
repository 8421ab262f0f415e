use flow_base::Bytes;

/// Bytes of guest memory that stand one after the other from an address.
#[derive(Drop)]
pub struct Segment {
    /// The address of the first byte.
    pub address: u32,
    /// The bytes in order.
    pub bytes: Bytes,
}
