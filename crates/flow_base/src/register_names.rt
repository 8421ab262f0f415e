ghost use Rattle.std.specs.Prelude.{◌≡◌, ◌<◌, length, map, IfSome};
ghost use Rattle.std.specs.List.{position_from};
ghost use Rattle.std.specs.Str.{bytes_eq};
ghost use Rattle.flow_base.specs.RegisterNames.{register_named as register_of};

/// The registers from 0 to 31 by their numbers.
pub const PLAIN_NAMES: [&str; 32] = [
    "x0", "x1", "x2", "x3", "x4", "x5", "x6", "x7", "x8", "x9", "x10", "x11", "x12", "x13", "x14",
    "x15", "x16", "x17", "x18", "x19", "x20", "x21", "x22", "x23", "x24", "x25", "x26", "x27",
    "x28", "x29", "x30", "x31",
];

/// The registers from 0 to 31 by their names in the calling convention.
pub const CONVENTION_NAMES: [&str; 32] = [
    "zero", "ra", "sp", "gp", "tp", "t0", "t1", "t2", "s0", "s1", "a0", "a1", "a2", "a3", "a4",
    "a5", "a6", "a7", "s2", "s3", "s4", "s5", "s6", "s7", "s8", "s9", "s10", "s11", "t3", "t4",
    "t5", "t6",
];

/// The place of a name among names, counted from 0.
fn place(names: &[&str], name: &[u8]) -> Option<usize>
    ensures exact { result ≡ position_from (λ other. bytes_eq other name.now) 0 (map (λ other. other.now) names.now) }
    ensures inside { IfSome result (λ place. place < length names.now) }
{
    names.iter().position(|other| other.as_bytes() == name)
}

/// The register of a name, from 0 to 31: `x` and its number, or its name in the calling convention, where s0 is fp
/// too (RISC-V ELF psABI, "Integer Register Convention"); None for any other text.
#[tactic(auto, using(crate::proofs::NameTables::name_tables))]
pub fn register_named(name: &[u8]) -> Option<u8>
    ensures exact { result ≡ register_of name.now }
    ensures below { IfSome result (λ register. register < 32) }
{
    if name == b"fp".as_slice() {
        return Some(8);
    }
    let place = match place(&PLAIN_NAMES, name) {
        Some(place) => place,
        None => place(&CONVENTION_NAMES, name)?,
    };
    Some(place as u8)
}
