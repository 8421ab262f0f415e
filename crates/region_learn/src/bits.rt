ghost use Rattle.std.specs.Prelude.{◌≡◌, ◌==◌, ◌||◌, ℕ, ◌<◌};
ghost use Rattle.region_learn.specs.Private.Marks.{has_bit as has_bit_of};

/// Whether a word has the bit with an index, 0 to 31.
#[inline(always)]
pub(crate) fn has_bit(word: u32, index: u32) -> bool
    requires { index < 32 }
    ensures { result ≡ has_bit_of word index }
{
    (word >> index) & 1 == 1
}

/// The word with the bit with an index, 0 to 31.
#[inline(always)]
pub(crate) fn with_bit(word: u32, index: u32) -> u32
    requires { index < 32 }
    ensures { (other : ℕ) → has_bit_of result other ≡ (has_bit_of word other || (other == index)) }
{
    word | (1 << index)
}
