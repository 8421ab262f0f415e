ghost use Rattle.std.specs.Prelude.{◌≡◌};
ghost use Rattle.guest_calls.specs.Calls.{checked_write};

use crate::ranges::inside;

/// What a write does.
#[derive(Clone, Copy, Debug)]
pub enum WriteCheck {
    /// The bytes are appended to the output.
    Append,
    /// Not all of the bytes are inside guest memory.
    BadAddress,
    /// The output would exceed its limit.
    OverLimit,
}

/// What a write of `length` bytes from an address on does (write of Linux for RISC-V), where `base` is the lowest
/// address of guest memory, and the output has `written` bytes of at most `limit`. A write of no bytes appends them
/// wherever they stand; a bad address is told before the limit is asked.
pub fn write_check(base: u32, address: u32, length: u32, written: u32, limit: u32) -> WriteCheck
    ensures { result ≡ checked_write base address length written limit }
{
    if length == 0 {
        WriteCheck::Append
    } else if !inside(base, address, length) {
        WriteCheck::BadAddress
    } else if u64::from(written) + u64::from(length) <= u64::from(limit) {
        WriteCheck::Append
    } else {
        WriteCheck::OverLimit
    }
}
