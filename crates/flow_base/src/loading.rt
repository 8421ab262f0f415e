ghost use Rattle.std.specs.Prelude.{◌≡◌, ◌≢◌, ◌+◌, ◌^◌, ◌<◌, ◌≤◌, ℕ, Option, Err, option_map};
ghost use Rattle.flow_base.specs.Loads.{Told, after_load, Answers, ShowsCause};
ghost use Rattle.flow_base.specs.declared.loading.LoadFault.TheVariants.{Failed};

use crate::lists::{Bytes, NoMemory};
use std::alloc::Global;

/// Why a load gave no bytes.
#[derive(Clone, Copy, Debug)]
pub enum LoadFault {
    /// The source failed; its count of faults rose.
    Failed,
    /// More bytes than the limit are held; the number is the limit plus 1.
    TooLarge(u32),
    /// There was not enough memory.
    Memory,
}

/// Where files come from. A source has a count of faults that never falls. Where it tells its meanings, these are the
/// bytes held under each name, the numbers of the loads that fail, and the number of loads made.
pub trait Files {
    ghost faults: { Self → ℕ };

    ghost told: { Self → Option Told };

    /// The bytes held under a name, at most `limit` of them. Loads are numbered from 1, and each raises the number of
    /// loads, whatever it answers; at 2^64 - 1 that number stays.
    /// `Failed` comes only where the count of faults rose and, where told, exactly where this load's number is one that
    /// fails or the name is not held. `TooLarge(limit + 1)` comes, where told, exactly where the load does not fail and
    /// more than `limit` bytes are held. `Memory` changes nothing but the number of loads, and no answer but `Failed`
    /// changes the count of faults.
    fn load(&mut self, alloc: Global, name: &str, limit: u32) -> Result<Bytes, LoadFault>
        requires { limit + 1 < 2 ^ 32 }
        ensures counts { told self.new ≡ option_map after_load (told self.old) }
        ensures answers { Answers (told self.old) name.now limit result }
        ensures cause { ShowsCause limit (faults self.old) (faults self.new) result }
        ensures kept { result ≢ Err Failed → faults self.new ≡ faults self.old }
        ensures faults { faults self.old ≤ faults self.new };
}

impl From<NoMemory> for LoadFault {
    ghost use Rattle.std.specs.Prelude.{◌≡◌};
    ghost use Rattle.flow_base.specs.declared.loading.LoadFault.TheVariants.{Memory};

    ghost from_gives = { λ _ fault. fault ≡ Memory };

    fn from(_: NoMemory) -> LoadFault {
        LoadFault::Memory
    }
}
