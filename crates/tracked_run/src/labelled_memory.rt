ghost use Rattle.std.specs.Prelude.{◌≡◌, ◌+◌, ◌≤◌, ◌^◌, IfOk};
ghost use Rattle.flow_base.specs.Guests.{memory_size};
ghost use Rattle.rv32im_machine.specs.Start.{zeros};
ghost use Rattle.shadow_masks.specs.Shades.{IsNew};

use flow_base::NoMemory;
use rv32im_machine::GuestMemory;
use shadow_masks::Shadow;
use std::alloc::Global;

/// The guest memory of a run, 16 MiB, and its labels, which one run hands on to the next.
#[derive(Drop)]
pub struct LabelledMemory {
    /// The bytes.
    pub guest: GuestMemory,
    /// The labels of the bytes and of the registers.
    pub labels: Shadow,
}

impl LabelledMemory {
    /// Guest memory whose bytes are 0, with clean labels, of a guest whose memory begins at an address and ends at 2^32
    /// or below. `NoMemory` where there is not enough.
    pub fn new(alloc: Global, base: u32) -> Result<LabelledMemory, NoMemory>
        requires { base + memory_size ≤ 2 ^ 32 }
        ensures guest { IfOk result (λ memory. memory.guest ≡ zeros memory_size) }
        ensures labels { IfOk result (λ memory. IsNew base memory.labels) }
    {
        Ok(LabelledMemory {
            guest: GuestMemory::new(alloc)?,
            labels: Shadow::new(alloc, base)?,
        })
    }
}
