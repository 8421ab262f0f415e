//! The different patterns that were found.

ghost use Rattle.std.specs.Prelude.{◌≡◌, ◌+◌, ◌-◌, ◌^◌, [], length, map, min, nat_lt, IfOk, OnOk, OnErr, if◌then◌else◌};
ghost use Rattle.every_secret.specs.Bounds.{pattern_limit, size_of, with_pattern};
ghost use Rattle.every_secret.specs.Private.KeptPatterns.{pattern_of};

use crate::kept_patterns::KeptPattern;
use crate::patterns::Pattern;
use flow_base::{List, NoMemory};
use indexmap::IndexSet;
use std::alloc::Global;
use std::marker::Model;

/// Patterns with more bytes, each having its bytes and one more, are not kept.
pub(crate) const PATTERN_LIMIT: u32 = 67_108_864;

/// The different patterns, in the order in which they were first found, and how many bytes they have together, each having
/// its bytes and one more, as far as 64 bits count. Contracts see the patterns. A pattern is looked for by its hash.
#[derive(Drop)]
pub(crate) struct PatternSet {
    kept: IndexSet<KeptPattern>,
    size: u64,
}

impl Model for PatternSet {
    ghost use Rattle.std.specs.Prelude.{◌≡◌, ◌-◌, ◌^◌, List as Seq, map, min};
    ghost use Rattle.every_secret.specs.declared.patterns.Pattern.{Pattern as ThePattern};
    ghost use Rattle.every_secret.specs.Bounds.{size_of};
    ghost use Rattle.every_secret.specs.Private.KeptPatterns.{pattern_of};

    ghost Value = { Seq ThePattern };

    ghost view = { λ s. map pattern_of s.kept.keys };

    ghost invariant = { λ s. s.size ≡ min (size_of (map pattern_of s.kept.keys)) (2 ^ 64 - 1) };
}

/// Puts a key after the others, if it is none of them, and says whether it was none. `NoMemory` where there is not
/// enough; the keys then stay.
fn put(keys: &mut IndexSet<KeptPattern>, key: KeptPattern) -> Result<bool, NoMemory>
    ensures patterns { OnOk result (map pattern_of keys.new.keys
        ≡ with_pattern (pattern_of key) (map pattern_of keys.old.keys)) }
    ensures size { IfOk result (λ is_new. size_of (map pattern_of keys.new.keys)
        ≡ (if is_new then size_of (map pattern_of keys.old.keys) + length key.bytes.items + 1
        else size_of (map pattern_of keys.old.keys))) }
    ensures err { OnErr result (keys.new.keys ≡ keys.old.keys) }
{
    match keys.insert(key) {
        Ok(is_new) => Ok(is_new),
        Err(_) => Err(NoMemory),
    }
}

/// A size with so many bytes and one more, if they are new, as far as 64 bits count.
fn grown(size: u64, bytes: u64, is_new: bool) -> u64
    ensures { result ≡ (if is_new then min (size + bytes + 1) (2 ^ 64 - 1) else size) }
{
    if is_new {
        size.saturating_add(bytes).saturating_add(1)
    } else {
        size
    }
}

impl PatternSet {
    /// No patterns. It takes no memory.
    pub fn new(alloc: Global) -> PatternSet
        ensures { result ≡ [] }
    {
        PatternSet {
            kept: IndexSet::new(alloc),
            size: 0,
        }
    }

    /// Puts a pattern after the others, if it is none of them. `NoMemory` where there is not enough.
    pub fn insert(&mut self, pattern: Pattern) -> Result<(), NoMemory>
        ensures { OnOk result (self.new ≡ with_pattern pattern self.old) }
    {
        let key = KeptPattern::of(pattern);
        let bytes = key.bytes.len() as u64;
        let is_new = put(&mut self.kept, key)?;
        self.size = grown(self.size, bytes, is_new);
        Ok(())
    }

    /// Whether the patterns have too many bytes.
    pub fn is_large(&self) -> bool
        ensures { result ≡ nat_lt pattern_limit (size_of self.now) }
    {
        u64::from(PATTERN_LIMIT) < self.size
    }

    /// The patterns as a list. `NoMemory` where there is not enough.
    #[tactic(auto, using(crate::proofs::KeptKeys::kept_seam, crate::proofs::KeptKeys::kept_ended))]
    pub fn into_list(self, alloc: Global) -> Result<List<Pattern>, NoMemory>
        ensures { IfOk result (λ patterns. patterns ≡ self) }
    {
        let mut patterns = Vec::new(alloc);
        for kept in self.kept {
            patterns.push(kept.into_pattern()).map_err(|_| NoMemory)?;
        }
        Ok(List::from_vec(patterns))
    }
}
