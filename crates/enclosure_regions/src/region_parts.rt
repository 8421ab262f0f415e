use flow_base::List;

/// A piece of memory that a region declares.
#[derive(Clone, Copy)]
pub struct Range {
    /// The register, 1 to 31, whose value at the region's entry is added to the offset, modulo 2^32; or none.
    pub base: Option<u8>,
    /// The offset in bytes.
    pub offset: u32,
    /// The number of bytes, 1 to 65,536.
    pub length: u32,
}

/// A piece of a program whose writes are declared: it begins at one address and ends at another.
#[derive(Drop)]
pub struct Region {
    /// The region's number, 1 to 65,535.
    pub id: u16,
    /// The address at which the region is entered.
    pub enter: u32,
    /// The address at which it is left.
    pub leave: u32,
    /// The registers that it writes for others, ascending.
    pub outs: List<u8>,
    /// The registers that it writes and gives back as they were, ascending.
    pub keep: List<u8>,
    /// The memory that it writes.
    pub ranges: List<Range>,
}
