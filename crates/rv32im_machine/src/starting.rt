ghost use Rattle.std.specs.Prelude.{◌≡◌, ◌+◌, ◌-◌, ◌^◌, ◌<◌, ◌≤◌, IfOk, IsTrue, length};
ghost use Rattle.flow_base.specs.Guests.{memory_size};
ghost use Rattle.elf32_loader.specs.Images.{image_picture};
ghost use Rattle.elf32_loader.specs.Segments.{are_inside, end_of};
ghost use Rattle.rv32im_machine.specs.Start.{HoldsImage, laid, laid_at, top_of, first_break, start};

use crate::guest_memory::GuestMemory;
use crate::machines::Machine;
use elf32_loader::{Image, Segment};
use flow_base::{Bytes, NoMemory};
use std::alloc::Global;

/// Lays a segment over memory.
fn lay_segment(memory: &mut GuestMemory, base: u32, segment: &Segment)
    requires low { base ≤ segment.now.address }
    requires high { segment.now.address + length segment.now.bytes ≤ base + memory_size }
    ensures { memory.new ≡ laid_at (segment.now.address - base) segment.now.bytes memory.old }
{
    let bytes = segment.bytes.as_slice();
    memory.lay((segment.address - base) as usize, bytes);
}

/// Lays segments over memory, one after another.
fn lay_segments(memory: &mut GuestMemory, base: u32, segments: &[Segment])
    requires { IsTrue (are_inside base segments.now) }
    ensures { memory.new ≡ laid base segments.now memory.old }
{
    let mut rest = segments;
    while let [segment, more @ ..] = rest {
        lay_segment(memory, base, segment);
        rest = more;
    }
}

/// The highest end of segments that lie in the memory from the base on; 0 where there are none.
fn highest_end(base: u32, segments: &[Segment]) -> u32
    requires { IsTrue (are_inside base segments.now) }
    ensures top { result ≡ top_of segments.now }
    ensures below { result ≤ 0xfffff000 }
{
    let mut top = 0;
    let mut rest = segments;
    while let [segment, more @ ..] = rest {
        top = segment_end(segment).max(top);
        rest = more;
    }
    top
}

/// The address after a segment's last byte.
fn segment_end(segment: &Segment) -> u32
    requires { end_of segment.now ≤ 0xfffff000 }
    ensures { result ≡ end_of segment.now }
{
    segment.address + segment.bytes.len() as u32
}

/// The break at the start: the highest end of the segments, rounded up to a multiple of 4,096.
fn starting_break(base: u32, segments: &[Segment]) -> u32
    requires { IsTrue (are_inside base segments.now) }
    ensures { result ≡ first_break segments.now }
{
    highest_end(base, segments).next_multiple_of(4096)
}

impl Machine {
    /// A guest at its start: its memory is what the image puts there, 0 where no segment stands, the program counter is
    /// the entry, and the registers are 0 but x2, the stack pointer, which is the memory's end minus 64. The break is
    /// the highest segment end rounded up to a multiple of 4,096.
    ///
    /// It has copies of both inputs, a secret of fewer than 2^32 bytes among them, and room for `output_limit` bytes of
    /// output, so no later call takes memory. `NoMemory` comes where there is not enough.
    pub fn new(
        alloc: Global,
        image: &Image,
        public: &Bytes,
        secret: &Bytes,
        output_limit: u32,
    ) -> Result<Machine, NoMemory>
        requires { length secret.now < 2 ^ 32 }
        ensures start { IfOk result (λ machine.
            machine ≡ start (image_picture image.now) public.now secret.now output_limit) }
        ensures memory { IfOk result (λ machine. HoldsImage (image_picture image.now) machine) }
    {
        let memory = GuestMemory::new(alloc)?;
        Machine::new_in(memory, alloc, image, public, secret, output_limit)
    }

    /// The same guest at its start in guest memory that may have been another's: what was there is gone, so a run from
    /// here is that of a fresh start. It takes the time of what the other has written and of the image. `NoMemory`
    /// comes where there is not enough; the guest memory is then freed.
    #[tactic(auto, unfolding(crate::specs::Start::first_memory))]
    pub fn new_in(
        memory: GuestMemory,
        alloc: Global,
        image: &Image,
        public: &Bytes,
        secret: &Bytes,
        output_limit: u32,
    ) -> Result<Machine, NoMemory>
        requires { length secret.now < 2 ^ 32 }
        ensures start { IfOk result (λ machine.
            machine ≡ start (image_picture image.now) public.now secret.now output_limit) }
        ensures memory { IfOk result (λ machine. HoldsImage (image_picture image.now) machine) }
    {
        let mut memory = memory;
        memory.clear();
        lay_segments(&mut memory, image.base, image.segments.as_slice());
        let public = Bytes::from_slice(alloc, public.as_slice())?;
        let secret = Bytes::from_slice(alloc, secret.as_slice())?;
        let output = Vec::with_capacity(alloc, output_limit as usize)?;
        Ok(Machine::at_start(
            image.base,
            image.entry,
            starting_break(image.base, image.segments.as_slice()),
            memory,
            public,
            secret,
            output,
            output_limit,
        ))
    }
}
