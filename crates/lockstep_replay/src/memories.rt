ghost use Rattle.std.specs.Prelude.{◌≡◌, IfOk};
ghost use Rattle.flow_base.specs.Guests.{memory_size};
ghost use Rattle.rv32im_machine.specs.Start.{zeros};

use flow_base::NoMemory;
use rv32im_machine::GuestMemory;
use std::alloc::Global;

/// The guest memories of the two runs of a check, 16 MiB each, which one check hands on to the next.
#[derive(Drop)]
pub struct Memories {
    pub(crate) real: GuestMemory,
    pub(crate) replay: GuestMemory,
}

impl Memories {
    /// Guest memories whose bytes are 0. `NoMemory` where there is not enough.
    pub fn new(alloc: Global) -> Result<Memories, NoMemory>
        ensures real { IfOk result (λ memories. memories.real ≡ zeros memory_size) }
        ensures replay { IfOk result (λ memories. memories.replay ≡ zeros memory_size) }
    {
        Ok(Memories {
            real: GuestMemory::new(alloc)?,
            replay: GuestMemory::new(alloc)?,
        })
    }
}
