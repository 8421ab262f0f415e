use crate::lines::{LinkLine, PointLine, RelayLine};
use flow_base::List;

/// How far the text of a certificate has been read.
#[derive(Clone, Copy)]
pub enum Stage {
    /// No line.
    Nothing,
    /// The first line.
    Version,
    /// The first two lines and perhaps more.
    Open,
    /// All lines.
    Whole,
}

/// The first lines of a certificate.
#[derive(Drop)]
pub struct Draft {
    pub stage: Stage,
    pub value: u64,
    pub points: List<PointLine>,
    pub relays: List<RelayLine>,
    /// The regions of the relays.
    pub regions: List<u16>,
    pub links: List<LinkLine>,
}
