use crate::points::CutPoint;

/// A line of the text of a cut.
#[derive(Drop)]
pub enum Line {
    /// `flowcheck-cut VERSION`
    Version(u8),
    /// `secret LENGTH`
    Secret(u32),
    /// `bits NUMBER`
    Bits(u32),
    /// `skip REGION`
    Skip(u16),
    /// `point REGION 0xADDRESS SLOT RUNS rest REST`
    Point(CutPoint),
    /// `end`
    End,
}
