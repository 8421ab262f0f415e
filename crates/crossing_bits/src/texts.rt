ghost use Rattle.std.specs.Prelude.{◌≡◌, ◌*◌, ◌^◌, ◌≤◌, ◌<◌, length, IfOk};
ghost use Rattle.hex.specs.Hex.{encode_lower};
ghost use Rattle.crossing_bits.specs.HexText.{spelt_number, byte_at, bytes_of, hex_of};

use flow_base::{Bytes, List, NoMemory};
use std::alloc::Global;

/// The number of at most eight bits, the first of them lowest.
fn number(bits: &[bool]) -> u8
    requires { length bits.now ≤ 8 }
    ensures value { result ≡ spelt_number bits.now }
    ensures bound { result < 2 ^ length bits.now }
{
    match bits {
        [] => 0,
        [bit, more @ ..] => u8::from(*bit) + 2 * number(more),
    }
}

/// The byte of an index.
#[tactic(auto, using(crate::proofs::Places::take_min))]
fn byte(bits: &[bool], index: usize) -> u8
    requires { 8 * index < length bits.now }
    ensures { result ≡ byte_at bits.now index }
{
    let rest = &bits[8 * index..];
    number(&rest[..rest.len().min(8)])
}

/// As few bytes as hold every bit.
#[tactic(auto, using(crate::proofs::Places::first_bytes_none, crate::proofs::Places::first_bytes_more))]
fn packed(alloc: Global, bits: &[bool]) -> Result<Vec<u8>, NoMemory>
    ensures { IfOk result (λ bytes. bytes.items ≡ bytes_of bits.now) }
{
    let mut bytes = Vec::new(alloc);
    for index in 0..bits.len().div_ceil(8) {
        if bytes.push(byte(bits, index)).is_err() {
            return Err(NoMemory);
        }
    }
    Ok(bytes)
}

/// Bytes in hex, in lower case.
fn encoded(alloc: Global, bytes: &[u8]) -> Result<Bytes, NoMemory>
    ensures { IfOk result (λ text. text ≡ encode_lower bytes.now) }
{
    let text = hex::encode(alloc, bytes)?;
    Ok(List::from_vec(text.into_bytes()))
}

/// The bits as hex text.
pub fn hex_text(alloc: Global, bits: &[bool]) -> Result<Bytes, NoMemory>
    ensures { IfOk result (λ text. text ≡ hex_of bits.now) }
{
    if bits.is_empty() {
        return List::from_slice(alloc, b"-");
    }
    let bytes = packed(alloc, bits)?;
    encoded(alloc, bytes.as_slice())
}
