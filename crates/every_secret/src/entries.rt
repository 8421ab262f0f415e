//! The base registers of a region that a walk enters or skips: none of them may differ.

ghost use Rattle.std.specs.Prelude.{◌≡◌, IsTrue};
ghost use Rattle.std.specs.List.{list_all};
ghost use Rattle.enclosure_regions.specs.Regions.{is_base_register, is_range};
ghost use Rattle.tracked_run.specs.Labels.{map_of};
ghost use Rattle.every_secret.specs.Turns.{secret_base as base_secret, secret_or as or_secret};

use enclosure_regions::Range;
use shadow_masks::Shadow;

/// A base register, where it may differ, or the first of the others.
fn secret_or(shadow: &Shadow, base: Option<u8>, later: Option<u8>) -> Option<u8>
    requires { IsTrue (is_base_register base) }
    ensures { result ≡ or_secret base (map_of shadow.now) later }
{
    match base {
        None => later,
        Some(register) => {
            if shadow.reg(register).mask == 0 {
                later
            } else {
                Some(register)
            }
        }
    }
}

/// The base register of the first range whose base may differ.
#[tactic(auto, unfolding(crate::specs::Turns::secret_base))]
pub(crate) fn secret_base(shadow: &Shadow, ranges: &[Range]) -> Option<u8>
    requires { IsTrue (list_all is_range ranges.now) }
    ensures { result ≡ base_secret ranges.now (map_of shadow.now) }
{
    let [range, more @ ..] = ranges else {
        return None;
    };
    let later = secret_base(shadow, more);
    secret_or(shadow, range.base, later)
}
