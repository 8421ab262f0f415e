/// Where a label stands: the line that begins with it, counted from 0, and how many bytes the lines before it have; no
/// number where one of them has no size, or fails.
#[derive(Clone, Copy)]
pub struct Place {
    pub index: u64,
    pub offset: Option<u64>,
}
