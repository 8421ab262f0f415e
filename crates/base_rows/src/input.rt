use flow_base::{Sink, StandardOut};

/// Puts bytes and a line feed onto the standard output; whether they were taken.
pub fn put_line(rt: &HostRuntime, bytes: &[u8]) -> bool {
    let mut out = StandardOut::new(*rt);
    out.put(bytes).is_ok() && out.put(b"\n").is_ok()
}

/// The number that decimal digits spell.
pub fn number(word: &str) -> Option<u32> {
    word.parse::<u32>().ok()
}

/// The number that hexadecimal digits spell.
pub fn hexadecimal(word: &str) -> Option<u32> {
    u32::from_str_radix(word, 16).ok()
}
