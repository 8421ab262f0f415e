ghost use Rattle.std.specs.Prelude.{◌≡◌, true, IfOk};
ghost use Rattle.kept_states.specs.Pieces.{Grows};

use crate::bytes::{are_same_bytes, are_same_words, ended, mix, mix_bytes};
use crate::laids::{Laid, are_same_laids, mix_laids, size_of_laids};
use crate::laying::{kept_masks, lay_masks, lay_memory, register_masks};
use crate::pieces::Pieces;
use crate::putting::{put_memory, put_shadow};
use flow_base::{Bytes, List, NoMemory};
use replay_machine::LentVisits;
use rv32im_machine::{Machine, Standing};
use shadow_masks::Shadow;
use std::alloc::Global;

/// What a masked walk is between two turns: its machine, the masks of its shadow, its visits, and the free bits of what
/// it has written. Bytes of guest memory and their masks are pieces that many states share.
#[derive(Drop)]
pub struct KeptState<'c> {
    pub(crate) standing: Standing,
    pub(crate) memory: List<Laid>,
    pub(crate) masks: List<Laid>,
    pub(crate) register_masks: [u32; 32],
    pub(crate) kept_masks: [u32; 32],
    pub(crate) visits: LentVisits<'c>,
    pub(crate) byte_masks: Bytes,
    pub(crate) status_mask: u8,
    pub(crate) hash: u32,
}

/// A hash of the parts of a state that are soon read.
fn hash_of(
    standing: &Standing,
    memory: &[Laid],
    masks: &[Laid],
    register_masks: &[u32; 32],
    byte_masks: &[u8],
    status_mask: u8,
) -> u32 {
    let mut hash = mix(u64::from(standing.pc()), u64::from(status_mask));
    hash = mix(hash, standing.output().len() as u64);
    hash = mix_bytes(hash, byte_masks);
    hash = mix_laids(hash, memory);
    hash = mix_laids(hash, masks);
    for register in 0..32 {
        let value = u64::from(standing.registers().get(register));
        hash = mix(
            hash,
            (value << 32) | u64::from(register_masks[register as usize]),
        );
    }
    ended(hash)
}

impl<'c> KeptState<'c> {
    ghost use Rattle.kept_states.specs.Keeping.{CanReturn, Keeps};

    /// Keeps the state of a walk. Its error is lack of memory; pieces may have come then.
    pub fn of(
        alloc: Global,
        pieces: &mut Pieces,
        machine: &Machine,
        shadow: &Shadow,
        visits: &LentVisits<'c>,
        byte_masks: &[u8],
        status_mask: u8,
    ) -> Result<KeptState<'c>, NoMemory>
        requires { shadow.now.base ≡ machine.now.setting.base }
        ensures keeps { IfOk result (λ kept.
            Keeps pieces.new kept machine.now shadow.now visits.now byte_masks.now status_mask) }
        ensures grows { Grows pieces.old pieces.new }
    {
        machine.tell_memory();
        shadow.tell_outside();
        let standing = machine.standing(alloc)?;
        let memory = lay_memory(alloc, pieces, machine)?;
        let masks = lay_masks(alloc, pieces, shadow)?;
        let visits = visits.copy(alloc)?;
        let register_masks = register_masks(shadow);
        let hash = hash_of(
            &standing,
            memory.as_slice(),
            masks.as_slice(),
            &register_masks,
            byte_masks,
            status_mask,
        );
        let byte_masks = Bytes::from_slice(alloc, byte_masks)?;
        Ok(KeptState {
            standing,
            memory: List::from_vec(memory),
            masks: List::from_vec(masks),
            register_masks,
            kept_masks: kept_masks(shadow),
            visits,
            byte_masks,
            status_mask,
            hash,
        })
    }

    /// Puts a machine and a shadow into the state, and hands out its visits and the free bits of the bytes that were
    /// written. Its error is lack of memory; the machine and the shadow are then in no state of a walk.
    pub fn put_back(
        &self,
        alloc: Global,
        pieces: &Pieces,
        machine: &mut Machine,
        shadow: &mut Shadow,
    ) -> Result<(LentVisits<'c>, Vec<u8>), NoMemory>
        requires returns { CanReturn pieces.now self.now machine.old.setting }
        requires begins { shadow.old.base ≡ machine.old.setting.base }
        ensures keeps { IfOk result (λ back.
            Keeps pieces.now self.now machine.new shadow.new back.0 back.1.items self.now.status_mask) }
        ensures setting { machine.new.setting ≡ machine.old.setting }
        ensures secret { machine.new.secret ≡ machine.old.secret }
        ensures begins { shadow.new.base ≡ shadow.old.base }
    {
        put_memory(machine, pieces, self.memory.as_slice());
        machine.stand(&self.standing);
        put_shadow(
            shadow,
            pieces,
            self.masks.as_slice(),
            &self.register_masks,
            &self.kept_masks,
        )?;
        let visits = self.visits.copy(alloc)?;
        let byte_masks = self.byte_masks.as_slice().to_vec(alloc)?;
        Ok((visits, byte_masks))
    }

    /// The free bits of the exit status.
    pub fn status_mask(&self) -> u8
        ensures { result ≡ self.now.status_mask }
    {
        self.status_mask
    }

    /// Whether the states are the same, with the same pieces.
    pub fn is_same(&self, other: &KeptState<'_>) -> bool
        ensures { result ≡ true → self.now ≡ other.now }
    {
        self.hash == other.hash
            && self.status_mask == other.status_mask
            && are_same_laids(self.memory.as_slice(), other.memory.as_slice())
            && are_same_laids(self.masks.as_slice(), other.masks.as_slice())
            && are_same_words(&self.register_masks, &other.register_masks)
            && are_same_words(&self.kept_masks, &other.kept_masks)
            && are_same_bytes(self.byte_masks.as_slice(), other.byte_masks.as_slice())
            && self.standing.is_same(&other.standing)
            && self.visits.is_same(&other.visits)
    }

    /// A hash of the parts of the state that are soon read.
    pub(crate) fn hash(&self) -> u32 {
        self.hash
    }

    /// About how many bytes of memory the state takes, but for its pieces and its visits.
    pub(crate) fn size(&self) -> u64 {
        let output = self.standing.output().len() as u64;
        let masks = self.byte_masks.as_slice().len() as u64;
        size_of_laids(&self.memory)
            .saturating_add(size_of_laids(&self.masks))
            .saturating_add(output)
            .saturating_add(masks)
            .saturating_add(1024)
    }
}
