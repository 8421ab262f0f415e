//! Sets of bytes.

ghost use Rattle.std.specs.Prelude.{◌≡◌, ℕ, ◌<◌, ◌↔◌, IsTrue};
ghost use Rattle.piece_cells.specs.Cells.{Holds};

/// A set of bytes.
#[derive(Clone, Copy)]
pub struct ByteSet {
    words: [u64; 4],
}

impl ByteSet {
    /// The set of no byte.
    pub fn empty() -> ByteSet {
        ByteSet { words: [0; 4] }
    }

    /// The set of all 256 bytes.
    pub fn all() -> ByteSet
        ensures { (byte : ℕ) → byte < 256 → Holds result byte }
    {
        ByteSet {
            words: [u64::MAX; 4],
        }
    }

    /// Whether a byte is in the set.
    pub fn contains(&self, byte: u8) -> bool
        ensures { IsTrue result ↔ Holds self.now byte }
    {
        self.words[(byte / 64) as usize] >> (byte % 64) & 1 == 1
    }

    /// Adds a byte.
    pub fn insert(&mut self, byte: u8)
        ensures kept { (k : ℕ) → k < 256 → Holds self.old k → Holds self.new k }
        ensures new { Holds self.new byte }
    {
        self.words[(byte / 64) as usize] |= 1u64 << (byte % 64);
    }

    /// Whether no byte is in the set.
    pub fn is_empty(&self) -> bool
        ensures { IsTrue result → (byte : ℕ) → byte < 256 → Holds self.now byte → ⊥ }
    {
        self.words == [0u64; 4]
    }

    /// The bytes that are in both sets.
    pub fn meet(&self, other: ByteSet) -> ByteSet
        ensures { (byte : ℕ) → byte < 256 → Holds self.now byte → Holds other byte → Holds result byte }
    {
        let (a, b) = (&self.words, &other.words);
        ByteSet {
            words: [a[0] & b[0], a[1] & b[1], a[2] & b[2], a[3] & b[3]],
        }
    }

    /// The bytes that are in one of the sets or in both.
    pub fn join(&self, other: ByteSet) -> ByteSet
        ensures first { (byte : ℕ) → byte < 256 → Holds self.now byte → Holds result byte }
        ensures second { (byte : ℕ) → byte < 256 → Holds other byte → Holds result byte }
    {
        let (a, b) = (&self.words, &other.words);
        ByteSet {
            words: [a[0] | b[0], a[1] | b[1], a[2] | b[2], a[3] | b[3]],
        }
    }
}
