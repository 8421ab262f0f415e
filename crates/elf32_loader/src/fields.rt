ghost use Rattle.std.specs.Prelude.{◌≡◌, ◌+◌, ◌*◌, ◌<◌, ◌≤◌, MatchOption, length};
ghost use Rattle.elf32_loader.specs.Headers.{HasTable, IsLoad, entry_of, header_at, header_count, header_size, table_offset, file_word};

use crate::headers::Header;
use byteorder::{ByteOrder, LittleEndian};

/// PT_LOAD: a program header of bytes to be loaded.
const LOAD: u32 = 1;

/// The word at an offset.
fn word_from(file: &[u8], offset: usize) -> u32
    requires { offset + 4 ≤ length file.now }
    ensures { result ≡ file_word file.now offset }
{
    LittleEndian::read_u32(&file[offset..])
}

/// The number of program headers.
pub fn count_of(file: &[u8]) -> u16
    requires { 52 ≤ length file.now }
    ensures { result ≡ header_count file.now }
{
    LittleEndian::read_u16(&file[44..])
}

/// The size of a program header.
pub fn size_from(file: &[u8]) -> u16
    requires { 52 ≤ length file.now }
    ensures { result ≡ header_size file.now }
{
    LittleEndian::read_u16(&file[42..])
}

/// The address of the first instruction.
pub fn entry_from(file: &[u8]) -> u32
    requires { 52 ≤ length file.now }
    ensures { result ≡ entry_of file.now }
{
    LittleEndian::read_u32(&file[24..])
}

/// Where the program headers stand.
pub fn table_from(file: &[u8]) -> u32
    requires { 52 ≤ length file.now }
    ensures { result ≡ table_offset file.now }
{
    LittleEndian::read_u32(&file[28..])
}

/// The program header of an index.
pub fn header_of(file: &[u8], index: u16) -> Header
    requires has_table { HasTable file.now }
    requires below { index < header_count file.now }
    ensures { result ≡ header_at file.now index }
{
    let start = table_from(file) as usize + 32 * index as usize;
    Header {
        kind: word_from(file, start),
        offset: word_from(file, start + 4),
        address: word_from(file, start + 8),
        file_size: word_from(file, start + 16),
        memory_size: word_from(file, start + 20),
    }
}

/// The program header of an index where it is a load; None exactly where it is none.
pub fn load_of(file: &[u8], index: u16) -> Option<Header>
    requires has_table { HasTable file.now }
    requires below { index < header_count file.now }
    ensures { MatchOption result (¬ IsLoad file.now index)
        (λ header. IsLoad file.now index × (header ≡ header_at file.now index)) }
{
    let header = header_of(file, index);
    if header.kind == LOAD && header.memory_size != 0 {
        Some(header)
    } else {
        None
    }
}
