ghost use Rattle.std.specs.Prelude.{◌≡◌};
ghost use Rattle.guest_calls.specs.Calls.{bytes_read};

/// How many bytes a read of `count` bytes reads (read of Linux for RISC-V), where `left` bytes of the input are not yet
/// read.
pub fn read_count(count: u32, left: u32) -> u32
    ensures { result ≡ bytes_read count left }
{
    count.min(left)
}
