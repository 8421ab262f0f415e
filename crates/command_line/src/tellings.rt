/// What is told of a run.
#[derive(Clone, Copy)]
pub enum Telling {
    /// The cut that is measured of it, in a version of the text of a cut: 1 or 2.
    CutText(u32),
    /// The certificate of the maximum flow that is measured of it.
    Certificate,
    /// A report of what is measured of it, as JSON where it is true.
    Report(bool),
    /// The least declaration of regions that it needs.
    Declaration,
}
