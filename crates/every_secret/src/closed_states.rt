ghost use Rattle.std.specs.Prelude.{◌≡◌, ◌≤◌, [], ℕ, Some, IfSome, OnOk, IfOk, slice_get};
ghost use Rattle.kept_states.specs.Keeping.{StandsAt};
ghost use Rattle.every_secret.specs.Private.Closing.{MayClose};

use flow_base::NoMemory;
use kept_states::{KeptState, StateTable};
use std::alloc::Global;

/// States are kept while they have no more bytes than this.
const STATE_LIMIT: u64 = 268_435_456;

/// How many bytes of memory a state takes for the visits of one point of the cut.
const VISIT_SIZE: u64 = 24;

/// What is below a state all of whose paths are done, none of which is unclear or ends by the limit of turns.
#[derive(Clone, Copy)]
pub(crate) struct Closed {
    /// How many paths there are; None where these are 2^64 or more.
    pub paths: Option<u64>,
    /// How many of them stop; None where these are 2^64 or more.
    pub stopped: Option<u64>,
    /// The most turns that one of them makes from there.
    pub turns: u32,
    /// The most bits that cross on one of them from there.
    pub bits: u32,
}

/// The states all of whose paths are done.
#[derive(Drop)]
pub(crate) struct ClosedStates<'a> {
    pub states: StateTable<'a>,
    pub below: Vec<Closed>,
}

impl<'a> ClosedStates<'a> {
    /// None. `NoMemory` where there is not enough.
    pub fn new(alloc: Global) -> Result<ClosedStates<'a>, NoMemory>
        ensures states { IfOk result (λ closed. closed.states ≡ []) }
        ensures below { IfOk result (λ closed. closed.below.items ≡ []) }
    {
        Ok(ClosedStates {
            states: StateTable::new(alloc)?,
            below: Vec::new(alloc),
        })
    }

    /// What is below a state, where it is closed, and so many turns are left and so many bits of the budget.
    pub fn find(&self, kept: &KeptState<'_>, left: u32, room: u32) -> Option<Closed>
        ensures found { IfSome result (λ closed. (index : ℕ) × StandsAt self.now.states index kept.now
            × (slice_get self.now.below.items index ≡ Some closed)) }
        ensures turns { IfSome result (λ closed. closed.turns ≤ left) }
        ensures bits { IfSome result (λ closed. closed.bits ≤ room) }
    {
        let index = self.states.find(kept)?;
        let closed = *self.below.get(index)?;
        if closed.turns <= left && closed.bits <= room {
            Some(closed)
        } else {
            None
        }
    }

    /// Whether more states may be kept, of a cut with so many points, beside so many bytes of pieces.
    pub fn has_room(&self, points: usize, pieces: usize) -> bool {
        let visits = (self.states.len() as u64)
            .saturating_mul(VISIT_SIZE)
            .saturating_mul(points as u64);
        self.states
            .size()
            .saturating_add(visits)
            .saturating_add(pieces as u64)
            < STATE_LIMIT
    }

    /// Closes a state, unless too many are kept already. `NoMemory` where there is not enough.
    pub fn insert(&mut self, kept: KeptState<'a>, closed: Closed) -> Result<(), NoMemory>
        ensures { OnOk result (MayClose self.old self.new kept.entry closed) }
    {
        if self.states.size() >= STATE_LIMIT {
            return Ok(());
        }
        self.below.push(closed).map_err(|_| NoMemory)?;
        self.states.insert(kept)
    }
}
