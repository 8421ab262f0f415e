ghost use Rattle.std.specs.Prelude.{◌≡◌, ◌≤◌, [], map, string_bytes, IfOk, IfSome, IsTrue};
ghost use Rattle.std.specs.List.{list_all};
ghost use Rattle.serde_json.specs.View.{view};
ghost use Rattle.enclosure_regions.specs.Regions.{is_code_address, is_register};
ghost use Rattle.enclosure_regions.specs.Shapes.{number_within, place_at, register_at, registers_at, registers_onto};
ghost use Rattle.enclosure_regions.specs.Shapes.{registers_if, word_at};
ghost use Rattle.serde_json.specs.View.{items_view};

use crate::words::{offset, place as place_in};
use flow_base::{List, NoMemory, register_named};
use serde_json::Value;
use std::alloc::Global;

/// A number from the lowest to the highest.
pub fn number(value: &Value, lowest: u64, highest: u64) -> Option<u64>
    ensures exact { result ≡ number_within lowest highest (view value.now) }
    ensures above { IfSome result (λ number. lowest ≤ number) }
    ensures below { IfSome result (λ number. number ≤ highest) }
{
    let number = value.as_u64()?;
    if lowest <= number && number <= highest {
        Some(number)
    } else {
        None
    }
}

/// A whole number from -2^31 to 2^32 - 1, modulo 2^32.
pub fn word(value: &Value) -> Option<u32>
    ensures { result ≡ word_at (view value.now) }
{
    offset(value.as_i64()?)
}

/// The address of an instruction.
pub fn place(value: &Value) -> Option<u32>
    ensures exact { result ≡ place_at (view value.now) }
    ensures place { IfSome result (λ place. IsTrue (is_code_address place)) }
{
    place_in(value.as_str()?.as_bytes())
}

/// A register from 1 to 31 by its name.
pub fn register(value: &Value) -> Option<u8>
    ensures exact { result ≡ register_at (view value.now) }
    ensures register { IfSome result (λ register. IsTrue (is_register register)) }
{
    let register = register_named(value.as_str()?.as_bytes())?;
    if register == 0 { None } else { Some(register) }
}

// The registers of the items.
fn registers_of(alloc: Global, items: &[Value]) -> Result<Option<List<u8>>, NoMemory>
    ensures exact { IfOk result (λ found. found ≡ registers_onto [] (items_view items.now)) }
    ensures registers { IfOk result (λ found. IfSome found (λ registers. IsTrue (list_all is_register registers))) }
{
    let mut found = List::new(alloc);
    let mut rest = items;
    while let [item, more @ ..] = rest {
        let Some(register) = register(item) else {
            return Ok(None);
        };
        found.push(register)?;
        rest = more;
    }
    Ok(Some(found))
}

/// The registers of an array of names, in its order; None where it is none.
pub fn registers(alloc: Global, value: &Value) -> Result<Option<List<u8>>, NoMemory>
    ensures exact { IfOk result (λ found. found ≡ registers_at (view value.now)) }
    ensures registers { IfOk result (λ found. IfSome found (λ registers. IsTrue (list_all is_register registers))) }
{
    match value.as_array() {
        Some(items) => registers_of(alloc, items.as_slice()),
        None => Ok(None),
    }
}
