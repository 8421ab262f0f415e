ghost use Rattle.std.specs.Prelude.{◌≡◌, ◌+◌, ◌≤◌, ◌^◌, IsTrue};
ghost use Rattle.flow_base.specs.Guests.{is_inside as is_inside_memory};

/// The number of bytes of guest memory, 16 MiB.
pub const MEMORY_SIZE: u32 = 16_777_216;

/// Whether each of `count` bytes from an address on is one of guest memory, whose lowest address is `base`. A range
/// whose end would pass 2^32 is not inside; a range of no bytes is inside wherever it stands.
pub fn is_inside(base: u32, address: u32, count: u32) -> bool
    ensures inside { result ≡ is_inside_memory base address count }
    ensures below { IsTrue result → address + count ≤ 2 ^ 32 }
{
    let end = u64::from(address) + u64::from(count);
    let memory_end = u64::from(base) + u64::from(MEMORY_SIZE);
    count == 0 || (base <= address && end <= memory_end && end <= 0x1_0000_0000)
}
