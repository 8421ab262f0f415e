ghost use Rattle.std.specs.Prelude.{◌≡◌, ◌<◌, ℕ, Some};
ghost use Rattle.rv32im_machine.specs.Playing.{IsSeen};
ghost use Rattle.tracked_run.specs.Labels.{labels_of};
ghost use Rattle.tracked_run.specs.declared.held.Held.{Held as TheHeld};
ghost use Rattle.masked_turns.specs.Looking.{first_look, look_at};

use crate::uses::SecretLook;
use rv32im_machine::Seen;
use shadow_masks::Shadow;

/// A look at the word at an address.
#[inline(always)]
fn code_look(shadow: &Shadow, address: u32) -> Option<SecretLook>
    requires { IsSeen (Some shadow.now.base) (Seen.Word address) }
    ensures { (region : ℕ) (held : TheHeld) →
        result ≡ look_at region (labels_of shadow.now held) (Seen.Word address) }
{
    if shadow.is_clean(address, 4) {
        None
    } else {
        Some(SecretLook::Code { pc: address })
    }
}

/// A look at a base register, at the entry of the region with this number.
fn base_look(shadow: &Shadow, region: u16, register: u8) -> Option<SecretLook>
    requires { register < 32 }
    ensures { (held : TheHeld) → result ≡ look_at region (labels_of shadow.now held) (Seen.Base register) }
{
    if shadow.reg(register).mask == 0 {
        None
    } else {
        Some(SecretLook::BaseRegister { region, register })
    }
}

/// Whether a turn may look there: at the word at an address, or at a base register in the entry of the region with this
/// number. It takes no memory.
#[inline(always)]
pub fn secret_look(shadow: &Shadow, region: u16, seen: Seen) -> Option<SecretLook>
    requires { IsSeen (Some shadow.now.base) seen }
    ensures { (held : TheHeld) → result ≡ look_at region (labels_of shadow.now held) seen }
{
    match seen {
        Seen::Word(address) => code_look(shadow, address),
        Seen::Base(register) => base_look(shadow, region, register),
    }
}

/// The first of two looks.
#[inline(always)]
pub fn earlier_look(first: Option<SecretLook>, second: Option<SecretLook>) -> Option<SecretLook>
    ensures { result ≡ first_look first second }
{
    match first {
        Some(look) => Some(look),
        None => second,
    }
}
