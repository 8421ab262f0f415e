ghost use Rattle.std.specs.Prelude.{◌≡◌, ◌≢◌, ◌+◌, ◌^◌, ◌<◌, ◌≤◌, Err, option_map, option_copied, List as Seq};
ghost use Rattle.flow_base.specs.Loads.{after_load, last_answer, UnlessMemory, Answers, ShowsCause};
ghost use Rattle.flow_base.specs.declared.loading.LoadFault.TheVariants.{Failed};
ghost use Rattle.flow_base.specs.MemoryFiles.{held_under, told_of, files_after};

use crate::lists::{Bytes, List};
use crate::loading::{Files, LoadFault};
use std::alloc::Global;

/// Bytes held under a name.
#[derive(Drop)]
pub struct Held {
    /// The name, as text in UTF-8.
    pub name: Bytes,
    /// The bytes that a load of the name gives.
    pub bytes: Bytes,
}

/// Files held in memory. A name that is not held is a fault.
#[derive(Drop)]
pub struct MemoryFiles {
    /// What is held; the first of equal names counts.
    pub names: List<Held>,
    /// The numbers of the loads that fail, counted from 1.
    pub fails: List<u64>,
    /// The number of loads made; it stays at 2^64 - 1.
    pub loads: u64,
    /// The number of loads that answered `Failed`; it stays at 2^64 - 1.
    pub faults: u64,
}

/// The bytes held under a name, or None; the first of equal names counts.
fn find<'a>(names: &'a [Held], name: &[u8]) -> Option<&'a [u8]>
    ensures { option_map (λ bytes. bytes.now) result ≡ held_under names.now name.now }
{
    for held in names {
        if held.name.as_slice() == name {
            return Some(held.bytes.as_slice());
        }
    }
    None
}

impl MemoryFiles {
    /// The answer of the load that was just counted.
    fn answer(&self, alloc: Global, name: &str, limit: u32) -> Result<Bytes, LoadFault>
        requires { limit + 1 < 2 ^ 32 }
        ensures { UnlessMemory result (last_answer (told_of self.now) name.now limit) }
    {
        if self.fails.as_slice().contains(&self.loads) {
            return Err(LoadFault::Failed);
        }
        let Some(bytes) = find(self.names.as_slice(), name.as_bytes()) else {
            return Err(LoadFault::Failed);
        };
        if bytes.len() > limit as usize {
            return Err(LoadFault::TooLarge(limit + 1));
        }
        Ok(Bytes::from_slice(alloc, bytes)?)
    }
}

impl Files for MemoryFiles {
    ghost use Rattle.std.specs.Prelude.{Some};
    ghost use Rattle.flow_base.specs.MemoryFiles.{told_of};

    ghost faults = { λ files. files.faults };

    ghost told = { λ files. Some (told_of files) };

    /// As [`Files::load`]; a load that answers `Failed` raises `faults`, and no other does.
    fn load(&mut self, alloc: Global, name: &str, limit: u32) -> Result<Bytes, LoadFault>
        requires { limit + 1 < 2 ^ 32 }
        ensures counts { Some (told_of self.new) ≡ option_map after_load (Some (told_of self.old)) }
        ensures answers { Answers (Some (told_of self.old)) name.now limit result }
        ensures cause { ShowsCause limit self.old.faults self.new.faults result }
        ensures kept { result ≢ Err Failed → self.new.faults ≡ self.old.faults }
        ensures faults { self.old.faults ≤ self.new.faults }
        ensures after { self.new ≡ files_after self.old result }
    {
        self.loads = self.loads.saturating_add(1);
        let answer = self.answer(alloc, name, limit);
        if let Err(LoadFault::Failed) = answer {
            self.faults = self.faults.saturating_add(1);
        }
        answer
    }
}
