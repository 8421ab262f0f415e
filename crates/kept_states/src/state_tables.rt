ghost use Rattle.std.specs.Prelude.{◌≡◌, ◌++◌, ◌∷◌, [], length, IfOk, IfSome, true, OnErr, OnOk};
ghost use Rattle.kept_states.specs.Keeping.{StandsAt};

use crate::kept_states::KeptState;
use crate::number_table::{NumberTable, STEPS};
use flow_base::NoMemory;
use std::alloc::Global;
use std::marker::Model;

/// The most states that a table has.
const MOST: usize = 0xffff_fff0;

/// States of a walk by number, in which one that is the same as another is found; contracts see the list.
#[derive(Drop)]
pub struct StateTable<'c> {
    states: Vec<KeptState<'c>>,
    table: NumberTable,
    size: u64,
}

impl<'c> Model for StateTable<'c> {
    ghost use Rattle.std.specs.Prelude.{List};
    ghost use Rattle.kept_states.specs.declared.kept_states.KeptState.{KeptState as TheState};

    ghost Value = { List TheState };

    ghost view = { λ t. t.states.items };
}

impl<'c> StateTable<'c> {
    /// No states. Its error is lack of memory.
    pub fn new(alloc: Global) -> Result<StateTable<'c>, NoMemory>
        ensures { IfOk result (λ table. table ≡ []) }
    {
        Ok(StateTable {
            states: Vec::new(alloc),
            table: NumberTable::new(alloc)?,
            size: 0,
        })
    }

    /// How many states there are.
    pub fn len(&self) -> usize
        ensures { result ≡ length self.now }
    {
        self.states.len()
    }

    /// About how many bytes of memory the states take, but for their pieces and their visits.
    pub fn size(&self) -> u64 {
        self.size
    }

    /// The number of a state that is the same. Where none is found there may yet be one.
    pub fn find(&self, state: &KeptState<'_>) -> Option<usize>
        ensures { IfSome result (λ number. StandsAt self.now number state.now) }
    {
        let hash = state.hash();
        for step in 0..STEPS {
            match self.table.candidate(hash, step) {
                Ok(Some(number)) => {
                    if self.is_at(number as usize, state) {
                        return Some(number as usize);
                    }
                }
                Ok(None) => {}
                Err(()) => return None,
            }
        }
        None
    }

    fn is_at(&self, number: usize, state: &KeptState<'_>) -> bool
        ensures { result ≡ true → StandsAt self.now number state.now }
    {
        match self.states.get(number) {
            Some(kept) => kept.is_same(state),
            None => false,
        }
    }

    /// Puts a state at the end; where memory is short the states stay as they were.
    pub fn insert(&mut self, state: KeptState<'c>) -> Result<(), NoMemory>
        ensures ok { OnOk result (self.new ≡ self.old ++ state.entry ∷ []) }
        ensures err { OnErr result (self.new ≡ self.old) }
    {
        let number = self.states.len();
        if number > MOST {
            return Err(NoMemory);
        }
        let size = state.size();
        self.table.insert(state.hash(), number as u32)?;
        if self.states.push(state).is_err() {
            return Err(NoMemory);
        }
        self.size = self.size.saturating_add(size);
        Ok(())
    }
}
