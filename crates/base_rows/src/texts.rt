ghost use Rattle.std.specs.Prelude.{◌≡◌, map, IfOk};
ghost use Rattle.base_rows.specs.Rows.{spelled_byte};

use flow_base::NoMemory;
use std::alloc::Global;

/// The byte that a byte of a row stands for: a slash stands for a line feed, a caret for a carriage return.
fn byte_of(byte: u8) -> u8
    ensures { result ≡ spelled_byte byte }
{
    match byte {
        b'/' => b'\n',
        b'^' => b'\r',
        _ => byte,
    }
}

/// The bytes of the text that a row spells.
pub fn bytes_of(alloc: Global, row: &[u8]) -> Result<Vec<u8>, NoMemory>
    ensures { IfOk result (λ text. text.items ≡ map spelled_byte row.now) }
{
    let mut text = Vec::new(alloc);
    for byte in row {
        text.push(byte_of(*byte)).map_err(|_| NoMemory)?;
    }
    Ok(text)
}
