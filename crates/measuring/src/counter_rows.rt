ghost use Rattle.std.specs.Prelude.{◌≡◌, length};

use flow_base::NoMemory;
use std::alloc::Global;

/// How many counters a row has: one for each instruction of a page.
pub(crate) const COLUMNS: usize = 1024;

/// The counters of one slot of the instructions of a page of 4,096 bytes.
#[derive(Drop)]
pub struct Row {
    pub counts: Vec<u32>,
    ghost full: { length counts.items ≡ 1024 },
}

impl Row {
    ghost use Rattle.std.specs.Prelude.{◌≡◌, ◌<◌, replicate, slice_index_or, slice_set, IfOk};

    /// Counters that are 0.
    pub(crate) fn new(alloc: Global) -> Result<Row, NoMemory>
        ensures { IfOk result (λ row. row.counts.items ≡ replicate 1024 0) }
    {
        let mut counts = Vec::new(alloc);
        match counts.resize(COLUMNS, 0u32) {
            Ok(()) => Ok(Row { counts }),
            Err(_) => Err(NoMemory),
        }
    }

    /// One counter.
    #[inline(always)]
    pub(crate) fn get(&self, column: usize) -> u32
        requires { column < 1024 }
        ensures { result ≡ slice_index_or self.now.counts.items column 0 }
    {
        self.counts[column]
    }

    /// Writes one counter.
    #[inline(always)]
    pub(crate) fn set(&mut self, column: usize, count: u32)
        requires { column < 1024 }
        ensures { self.new.counts.items ≡ slice_set self.old.counts.items column count }
    {
        self.counts[column] = count;
    }
}
