ghost use Rattle.std.specs.Prelude.{◌≡◌, ◌≤◌, ◌++◌, ◌∷◌, [], IfOk, OnOk, length};
ghost use Rattle.trial_guests.specs.Secrets.{length_of as length_of_of, next as next_of, secret_of};

use flow_base::{Bytes, NoMemory};
use std::alloc::Global;

/// The length of the secret of a number, in bytes: 1 to 2000.
pub fn length_of(number: u32) -> u32
    ensures is { result ≡ length_of_of number }
    ensures few { result ≤ 2000 }
{
    1 + number % 2_000
}

/// The state of the generator after this one.
fn next(state: u32) -> u32
    ensures { result ≡ next_of state }
{
    ((1_664_525 * u64::from(state) + 1_013_904_223) % 4_294_967_296) as u32
}

/// Puts a byte at the end.
fn put(bytes: &mut Vec<u8>, byte: u8) -> Result<(), NoMemory>
    ensures { OnOk result (bytes.new.items ≡ bytes.old.items ++ byte ∷ []) }
{
    match bytes.push(byte) {
        Ok(()) => Ok(()),
        Err(_) => Err(NoMemory),
    }
}

/// The secret of a number, at most 2,000 bytes: the highest bytes of the states of a generator that starts with it. Its
/// error is lack of memory.
pub fn secret(alloc: Global, number: u32) -> Result<Bytes, NoMemory>
    ensures is { IfOk result (λ secret. secret ≡ secret_of number) }
    ensures few { IfOk result (λ secret. length secret ≤ 2000) }
{
    let count = length_of(number);
    let mut bytes = Vec::new(alloc);
    let mut state = number;
    for _ in 0..count {
        state = next(state);
        put(&mut bytes, (state / 16_777_216) as u8)?;
    }
    Ok(Bytes::from_vec(bytes))
}
