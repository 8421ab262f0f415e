ghost use Rattle.std.specs.Prelude.{◌≡◌};
ghost use Rattle.guest_calls.specs.Calls.{call_kind};

/// The answer for a descriptor that the call does not know: -9 (EBADF of Linux for RISC-V).
pub const BAD_DESCRIPTOR: u32 = 0xffff_fff7;

/// The answer for bytes that are not all inside guest memory: -14 (EFAULT of Linux for RISC-V).
pub const BAD_ADDRESS: u32 = 0xffff_fff2;

/// The answer of a call that there is not: -38 (ENOSYS of Linux for RISC-V).
pub const UNKNOWN_CALL: u32 = 0xffff_ffda;

/// The calls that a guest has.
#[derive(Clone, Copy, Debug)]
pub enum CallKind {
    /// Reads bytes of an input into memory.
    Read,
    /// Writes bytes of memory to the output.
    Write,
    /// Ends the run, by exit or exit_group.
    Exit,
    /// Moves the break.
    Brk,
    /// A number that is no call.
    Unknown,
}

/// The call of a number, by Linux for RISC-V: read 63, write 64, exit 93, exit_group 94, brk 214.
pub fn call_kind(number: u32) -> CallKind
    ensures { result ≡ call_kind number }
{
    match number {
        63 => CallKind::Read,
        64 => CallKind::Write,
        93 | 94 => CallKind::Exit,
        214 => CallKind::Brk,
        _ => CallKind::Unknown,
    }
}
