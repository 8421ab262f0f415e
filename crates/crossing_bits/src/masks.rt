ghost use Rattle.std.specs.Prelude.{◌≡◌, ◌+◌, ◌%◌, ◌==◌, ◌^◌, ◌++◌, ◌∷◌, [], ◌≤◌, ◌<◌, length, IsOk, if◌then◌else◌};
ghost use Rattle.std.specs.Vec.{vec_len, vec_capacity};
ghost use Rattle.flow_base.specs.Words.{bit_count as count_of, bits_under, patched as patched_word};

use flow_base::NoMemory;

/// The number of bits that a mask has, 0 to 32.
#[tactic(auto, using(crate::proofs::Places::count_is_count_ones, crate::proofs::Places::count_bound))]
pub fn bit_count(mask: u32) -> u32
    ensures count { result ≡ count_of mask }
    ensures few { result ≤ 32 }
{
    mask.count_ones()
}

/// Puts the value's lowest bit at the end, where the mask has that place.
fn push_lowest(items: &mut Vec<bool>, value: u32, mask: u32) -> Result<(), NoMemory>
    requires { vec_len items.old + mask % 2 ≤ vec_capacity items.old }
    ensures pushed { items.new.items ≡ items.old.items ++ (if mask % 2 == 1 then (value % 2 == 1) ∷ [] else []) }
    ensures len { vec_len items.new ≡ vec_len items.old + mask % 2 }
    ensures room { vec_capacity items.old ≤ vec_capacity items.new }
    ensures ok { IsOk result }
{
    if mask % 2 == 1 {
        match items.push(value % 2 == 1) {
            Ok(()) => Ok(()),
            Err(_) => Err(NoMemory),
        }
    } else {
        Ok(())
    }
}

/// Puts the value's bits under the mask at the end, for which there has to be room.
pub fn push_bits(items: &mut Vec<bool>, value: u32, mask: u32) -> Result<(), NoMemory>
    requires { vec_len items.old + count_of mask ≤ vec_capacity items.old }
    ensures pushed { items.new.items ≡ items.old.items ++ bits_under value mask }
    ensures len { vec_len items.new ≡ vec_len items.old + count_of mask }
    ensures room { vec_capacity items.old ≤ vec_capacity items.new }
    ensures ok { IsOk result }
{
    let mut value = value;
    let mut mask = mask;
    while mask != 0 {
        push_lowest(items, value, mask)?;
        value /= 2;
        mask /= 2;
    }
    Ok(())
}

/// The value with the bits in place of those under the mask.
pub fn patched(value: u32, mask: u32, bits: &[bool]) -> u32
    ensures { result ≡ patched_word value mask bits.now }
{
    if mask == 0 {
        return value;
    }
    if mask % 2 == 0 {
        return value % 2 + 2 * patched(value / 2, mask / 2, bits);
    }
    match bits {
        [] => 2 * patched(value / 2, mask / 2, bits),
        [bit, more @ ..] => u32::from(*bit) + 2 * patched(value / 2, mask / 2, more),
    }
}
