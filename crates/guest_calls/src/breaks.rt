ghost use Rattle.std.specs.Prelude.{◌≡◌};
ghost use Rattle.guest_calls.specs.Calls.{moved_break};

/// The break after a request (brk of Linux for RISC-V): the requested address, where it is at least the starting break
/// and at most the end of guest memory, and else the break as it is now.
pub fn move_break(start: u32, now: u32, end: u32, request: u32) -> u32
    ensures { result ≡ moved_break start now end request }
{
    if start <= request && request <= end {
        request
    } else {
        now
    }
}
