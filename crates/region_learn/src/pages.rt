ghost use Rattle.std.specs.Prelude.{◌≡◌, ◌==◌, ◌||◌, ℕ, ◌<◌, false, IsTrue, OnOk, length, vec_len};
ghost use Rattle.region_learn.specs.Private.Marks.{page_has};

use crate::bits::{has_bit, with_bit};
use flow_base::NoMemory;
use std::alloc::Global;
use std::marker::Model;

/// The bytes of a page.
pub(crate) const PAGE_SIZE: usize = 4096;

/// The bits of a page's bytes; there are no words before the first mark.
#[derive(Drop)]
pub(crate) struct Page {
    words: Vec<u32>,
}

impl Model for Page {
    ghost use Rattle.std.specs.Prelude.{◌≡◌, ℕ, List, ◌⊎◌, vec_len};

    ghost Value = { List ℕ };

    ghost view = { λ page. page.words.items };

    ghost invariant = { λ page. (vec_len page.words ≡ 0) ⊎ (vec_len page.words ≡ 128) };
}

impl Page {
    /// A page without a mark. It takes no memory.
    pub(crate) fn new(alloc: Global) -> Page
        ensures { (index : ℕ) → page_has result index ≡ false }
    {
        Page {
            words: Vec::new(alloc),
        }
    }

    /// Whether it has no mark.
    pub(crate) fn is_empty(&self) -> bool
        ensures { IsTrue result → (index : ℕ) → page_has self.now index ≡ false }
    {
        self.words.is_empty()
    }

    /// Whether the byte with this index is marked.
    pub(crate) fn has(&self, index: usize) -> bool
        requires { index < 4096 }
        ensures { result ≡ page_has self.now index }
    {
        match self.words.get(index / 32) {
            Some(word) => has_bit(*word, (index % 32) as u32),
            None => false,
        }
    }

    /// Takes the memory for the words, if there are none.
    fn begin(&mut self) -> Result<(), NoMemory>
        ensures length { OnOk result (length self.new ≡ 128) }
        ensures same { OnOk result ((index : ℕ) → page_has self.new index ≡ page_has self.old index) }
    {
        if self.words.is_empty() {
            self.words.extend_from_slice(&[0; 128])?;
        }
        Ok(())
    }

    /// Marks the byte with this index. The first mark takes memory; where there is not enough nothing changes.
    pub(crate) fn mark(&mut self, index: usize) -> Result<(), NoMemory>
        requires { index < 4096 }
        ensures { OnOk result ((other : ℕ) → page_has self.new other ≡ (page_has self.old other || (other == index))) }
    {
        self.begin()?;
        let word = &mut self.words[index / 32];
        *word = with_bit(*word, (index % 32) as u32);
        Ok(())
    }
}
