/// A range that is not inside guest memory at the entry of its region.
#[derive(Clone, Copy)]
pub struct Outside {
    /// The region's number.
    pub region: u16,
    /// The first such range, counted from 0.
    pub range: u32,
}
