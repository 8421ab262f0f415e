//! Cuts of guests that read one secret byte.

/// Each bit of the byte that is read.
pub const ALL_BITS: &str =
    "flowcheck-cut 1\nsecret 1\nbits 8\npoint 0 0x00010010 in rest 0x000000ff\nend\n";

pub const NO_BITS: &str = "flowcheck-cut 1\nsecret 1\nbits 0\nend\n";

/// A cut with a blank after it.
pub const TRAILING: &str = "flowcheck-cut 1\nsecret 1\nbits 0\nend\n ";

/// Half of a written byte.
pub const OUT: &str =
    "flowcheck-cut 1\nsecret 1\nbits 4\npoint 0 0x0001001c ou rest 0x0000000f\nend\n";

/// The lowest bit of the secret at the result of its mask.
pub const LOWEST: &str =
    "flowcheck-cut 1\nsecret 1\nbits 1\npoint 0 0x00010018 rs 1*0x00000001 rest 0x00000001\nend\n";
