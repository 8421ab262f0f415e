ghost use Rattle.std.specs.Prelude.{◌≡◌};

use flow_base::{Sink, SinkFault};
use std::alloc::Global;

/// How many bytes are kept at most of a put.
const MOST_KEPT: usize = 1_048_576;

/// A sink that hands on to another what it is given, and keeps the beginning of each piece. What it tells is what the
/// other tells, and so are its faults.
#[derive(Drop)]
pub struct KeepingSink<S: Sink> {
    inner: S,
    kept: Vec<u8>,
}

impl<S: Sink> KeepingSink<S> {
    /// A sink that hands on to this one.
    pub fn new(alloc: Global, inner: S) -> KeepingSink<S>
        ensures { result.inner ≡ inner }
    {
        KeepingSink {
            inner,
            kept: Vec::new(alloc),
        }
    }

    /// What is kept.
    pub fn kept(&self) -> &[u8]
        ensures { result.now ≡ self.now.kept.items }
    {
        self.kept.as_slice()
    }
}

impl<S: Sink> Sink for KeepingSink<S> {
    ghost faults = { λ sink. S.faults sink.inner };

    ghost told = { λ sink. S.told sink.inner };

    /// As [`Sink::put`] of the other sink. Where there is no memory to keep the beginning, nothing is kept.
    fn put(&mut self, bytes: &[u8]) -> Result<(), SinkFault> {
        let count = bytes.len().min(MOST_KEPT);
        let _ = self.kept.extend_from_slice(&bytes[..count]);
        self.inner.put(bytes)
    }
}
