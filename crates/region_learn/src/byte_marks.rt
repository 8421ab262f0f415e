ghost use Rattle.std.specs.Prelude.{◌≡◌, ◌==◌, ◌||◌, ℕ, ◌<◌, false, IfOk, IsTrue, OnOk, [], length, slice_index_or, vec_len};
ghost use Rattle.flow_base.specs.Guests.{memory_size};
ghost use Rattle.region_learn.specs.Private.Marks.{marks_have, page_has};

use crate::pages::{PAGE_SIZE, Page};
use flow_base::NoMemory;
use std::alloc::Global;
use std::marker::Model;

/// The pages of guest memory.
const PAGES: usize = 4096;

/// Marked bytes of guest memory, each by its index from the lowest address on.
#[derive(Drop)]
pub(crate) struct ByteMarks {
    pages: Vec<Page>,
}

impl Model for ByteMarks {
    ghost use Rattle.std.specs.Prelude.{◌≡◌, ℕ, List, vec_len};

    ghost Value = { List (List ℕ) };

    ghost view = { λ marks. marks.pages.items };

    ghost invariant = { λ marks. vec_len marks.pages ≡ 4096 };
}

impl ByteMarks {
    /// No byte is marked. `NoMemory` where there is not enough.
    pub(crate) fn new(alloc: Global) -> Result<ByteMarks, NoMemory>
        ensures { IfOk result (λ marks. (index : ℕ) → marks_have marks index ≡ false) }
    {
        let mut pages = Vec::with_capacity(alloc, PAGES)?;
        for _ in 0..PAGES {
            if pages.push(Page::new(alloc)).is_err() {
                return Err(NoMemory);
            }
        }
        Ok(ByteMarks { pages })
    }

    /// The number of pages.
    pub(crate) fn count(&self) -> usize
        ensures count { result ≡ 4096 }
        ensures pages { length self.now ≡ 4096 }
    {
        self.pages.len()
    }

    /// The page with an index.
    pub(crate) fn page(&self, index: usize) -> &Page
        requires { index < 4096 }
        ensures { result.now ≡ slice_index_or self.now index [] }
    {
        &self.pages[index]
    }

    /// Marks the byte with this index. The first mark in a page takes memory.
    pub(crate) fn mark(&mut self, index: usize) -> Result<(), NoMemory>
        requires { index < memory_size }
        ensures { OnOk result ((other : ℕ) →
            marks_have self.new other ≡ (marks_have self.old other || (other == index))) }
    {
        self.pages[index / PAGE_SIZE].mark(index % PAGE_SIZE)
    }
}
