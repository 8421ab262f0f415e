ghost use Rattle.std.specs.Prelude.{◌≡◌};
ghost use Rattle.every_secret.specs.Shown.{shown_at};

use flow_base::Slot;

/// What of a passing is shown to whoever sees the run.
#[derive(Clone, Copy)]
pub(crate) enum Shown {
    Nothing,
    WrittenByte,
    ExitStatus,
}

/// What is shown of what passes at a slot.
#[inline(always)]
pub(crate) fn shown_of(slot: Slot) -> Shown
    ensures { result ≡ shown_at slot }
{
    match slot {
        Slot::First => Shown::Nothing,
        Slot::Second => Shown::Nothing,
        Slot::Address => Shown::Nothing,
        Slot::Result => Shown::Nothing,
        Slot::Decision => Shown::Nothing,
        Slot::Number => Shown::Nothing,
        Slot::Arg0 => Shown::Nothing,
        Slot::Arg1 => Shown::Nothing,
        Slot::Arg2 => Shown::Nothing,
        Slot::SecretIn => Shown::Nothing,
        Slot::ByteOut => Shown::WrittenByte,
        Slot::Status => Shown::ExitStatus,
        Slot::OutReg(_) => Shown::Nothing,
        Slot::OutRange(_) => Shown::Nothing,
    }
}
