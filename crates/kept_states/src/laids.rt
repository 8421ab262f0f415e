ghost use Rattle.std.specs.Prelude.{◌≡◌, ℕ, ◌+◌, ◌*◌, ◌<◌, length, true, OnOk};
ghost use Rattle.kept_states.specs.Laids.{HasBytes, LaidBelow};
ghost use Rattle.kept_states.specs.Pieces.{Grows};

use crate::bytes::{are_zero, mix};
use crate::pieces::Pieces;
use flow_base::{List, NoMemory};

/// A piece that stands for the bytes with the indices from `number * 256` on.
#[derive(Clone, Copy)]
pub struct Laid {
    /// The number of the piece among the bytes.
    pub number: u16,
    /// The number of the piece among all that are kept.
    pub piece: u32,
}

/// Keeps one more piece of bytes, if they are not all 0. The place is the one for the hint.
pub(crate) fn lay(
    pieces: &mut Pieces,
    laids: &mut Vec<Laid>,
    place: usize,
    number: u16,
    bytes: &[u8],
) -> Result<(), NoMemory>
    requires { length bytes.now ≡ 256 }
    ensures laid { OnOk result ((source : ℕ → ℕ) → HasBytes source number bytes.now →
        LaidBelow pieces.old laids.old.items number source →
        LaidBelow pieces.new laids.new.items (number + 1) source) }
    ensures grows { Grows pieces.old pieces.new }
{
    if are_zero(bytes) {
        return Ok(());
    }
    let piece = pieces.keep_at(place, bytes)?;
    match laids.push(Laid { number, piece }) {
        Ok(()) => Ok(()),
        Err(_) => Err(NoMemory),
    }
}

fn is_same_laid(left: Laid, right: Laid) -> bool
    ensures { result ≡ true → left ≡ right }
{
    left.number == right.number && left.piece == right.piece
}

/// Whether the same pieces stand for the same bytes.
pub(crate) fn are_same_laids(left: &[Laid], right: &[Laid]) -> bool
    ensures { result ≡ true → left.now ≡ right.now }
{
    if left.len() != right.len() {
        return false;
    }
    for index in 0..left.len() {
        if !is_same_laid(left[index], right[index]) {
            return false;
        }
    }
    true
}

/// A hash of what was mixed so far and pieces.
pub(crate) fn mix_laids(hash: u64, laids: &[Laid]) -> u64 {
    let mut mixed = hash;
    for laid in laids {
        mixed = mix(
            mixed,
            (u64::from(laid.piece) << 16) | u64::from(laid.number),
        );
    }
    mixed
}

/// How many bytes of memory they take.
pub(crate) fn size_of_laids(laids: &List<Laid>) -> u64 {
    (laids.len() as u64).saturating_mul(8)
}
