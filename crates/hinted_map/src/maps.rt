ghost use Rattle.std.specs.Prelude.{◌≡◌, ◌==◌, ◌++◌, ◌∷◌, [], cond, length, is_some, option_copied, None, IfOk, OnOk, OnErr, IfSome, IfNone};
ghost use Rattle.std.specs.Bool.{OnTrue};
ghost use Rattle.std.specs.List.{IsDistinct};
ghost use Rattle.std.specs.Map.{keys_of, lookup};
ghost use Rattle.std.specs.Ordering.{eq_by_cmp};
ghost use Rattle.hinted_map.specs.Maps.{Puts, StandsAt};

use flow_base::NoMemory;
use indexmap::IndexMap;
use std::alloc::Global;
use std::hash::Hash;

/// Values by keys, in the order in which the keys came. Keys are the same where their order says so.
///
/// A run asks for much the same keys in much the same order again and again. So a key is first looked for where the
/// latest one stands and after it, where the one before was found first, then where another one stood before it, and by
/// its hash only then.
#[derive(Drop)]
pub struct HintedMap<K: Ord + Hash, V> {
    pub map: IndexMap<K, V>,
    /// Where the latest key that was noted stands.
    pub latest: usize,
    /// Where another one did before it.
    pub before: usize,
    /// Whether the latest key that was noted was another one than the key before it.
    pub moves: bool,
}

impl<K: Ord + Hash, V> HintedMap<K, V> {
    /// No entries. It takes no memory.
    pub fn new(alloc: Global) -> HintedMap<K, V>
        ensures { result.map.entries ≡ [] }
    {
        HintedMap {
            map: IndexMap::new(alloc),
            latest: 0,
            before: 0,
            moves: true,
        }
    }

    /// The number of entries. No two of them have the same key.
    #[inline(always)]
    pub fn len(&self) -> usize
        ensures len { result ≡ length self.now.map.entries }
        ensures differ { IsDistinct (eq_by_cmp K.cmp) (keys_of self.now.map.entries) }
    {
        self.map.len()
    }

    /// Whether a key stands at an index.
    #[inline(always)]
    pub fn stands_at(&self, index: usize, key: &K) -> bool
        ensures { OnTrue result (StandsAt (eq_by_cmp K.cmp) self.now.map.entries key.now index) }
    {
        let _count = self.len();
        match self.map.get_index(index) {
            Some((stored, _)) => *stored == *key,
            None => false,
        }
    }

    /// The index of a key, by its hash; None exactly where it has no entry.
    #[inline(never)]
    pub fn find_anywhere(&self, key: &K) -> Option<usize>
        ensures at { IfSome result (StandsAt (eq_by_cmp K.cmp) self.now.map.entries key.now) }
        ensures none { IfNone result (lookup (eq_by_cmp K.cmp key.now) self.now.map.entries ≡ None) }
    {
        let _count = self.len();
        match self.map.get_full(key) {
            Some((index, _, _)) => Some(index),
            None => None,
        }
    }

    /// The index of a key, which is first looked for at an index that is given; None exactly where it has no entry.
    #[inline(always)]
    pub fn find_from(&self, hint: usize, key: &K) -> Option<usize>
        ensures at { IfSome result (StandsAt (eq_by_cmp K.cmp) self.now.map.entries key.now) }
        ensures none { IfNone result (lookup (eq_by_cmp K.cmp key.now) self.now.map.entries ≡ None) }
    {
        if self.stands_at(hint, key) {
            Some(hint)
        } else {
            self.find_anywhere(key)
        }
    }

    /// The index of a key, which is first looked for near the latest ones; None exactly where it has no entry.
    #[inline(always)]
    pub fn find(&self, key: &K) -> Option<usize>
        ensures at { IfSome result (StandsAt (eq_by_cmp K.cmp) self.now.map.entries key.now) }
        ensures none { IfNone result (lookup (eq_by_cmp K.cmp key.now) self.now.map.entries ≡ None) }
    {
        let behind = self.latest.wrapping_add(1);
        let (first, second) = if self.moves {
            (behind, self.latest)
        } else {
            (self.latest, behind)
        };
        if self.stands_at(first, key) {
            Some(first)
        } else if self.stands_at(second, key) {
            Some(second)
        } else {
            self.find_from(self.before, key)
        }
    }

    /// Whether a key has an entry.
    pub fn contains(&self, key: &K) -> bool
        ensures { result ≡ is_some (lookup (eq_by_cmp K.cmp key.now) self.now.map.entries) }
    {
        match self.find(key) {
            Some(_) => true,
            None => false,
        }
    }

    /// The value of a key.
    pub fn get(&self, key: &K) -> Option<&V>
        ensures { option_copied result ≡ lookup (eq_by_cmp K.cmp key.now) self.now.map.entries }
    {
        self.map.get(key)
    }

    /// Notes where a key was found, for the next look. The entries stay.
    #[inline(always)]
    pub fn note(&mut self, index: usize)
        ensures map { self.new.map ≡ self.old.map }
        ensures latest { self.new.latest ≡ index }
        ensures before { self.new.before ≡ cond (index == self.old.latest) self.old.before self.old.latest }
    {
        self.moves = index != self.latest;
        if self.moves {
            self.before = self.latest;
            self.latest = index;
        }
    }
}

impl<K: Ord + Hash + Drop, V: Drop> HintedMap<K, V> {
    /// Puts a key that has no entry after the others, with its value, and gives its index. Its error is lack of memory.
    #[inline(never)]
    pub fn add(&mut self, key: K, value: V) -> Result<usize, NoMemory>
        requires { lookup (eq_by_cmp K.cmp key) self.old.map.entries ≡ None }
        ensures at { IfOk result (StandsAt (eq_by_cmp K.cmp) self.new.map.entries key) }
        ensures added { OnOk result (self.new.map.entries ≡ self.old.map.entries ++ (key, value) ∷ []) }
        ensures puts { OnOk result (Puts (eq_by_cmp K.cmp) self.old.map.entries self.new.map.entries key value) }
        ensures err { OnErr result (self.new.map.entries ≡ self.old.map.entries) }
        ensures latest { self.new.latest ≡ self.old.latest }
        ensures before { self.new.before ≡ self.old.before }
    {
        let index = self.len();
        match self.map.insert(key, value) {
            Ok(_) => Ok(index),
            Err(_) => Err(NoMemory),
        }
    }
}
