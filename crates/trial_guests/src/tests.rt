use crate::{image, secret};
use std::test::Fail;

/// The program of 0, which keeps one bit of one byte, in words of another assembler.
const WORDS: [u32; 15] = [
    0x0030_0513,
    0x0008_05b7,
    0x7d00_0613,
    0x03f0_0893,
    0x0000_0073,
    0x0005_c303,
    0x0013_7313,
    0x0065_8023,
    0x0005_0613,
    0x0010_0513,
    0x0400_0893,
    0x0000_0073,
    0x0000_0513,
    0x05d0_0893,
    0x0000_0073,
];

/// The program of 0 and the secret of 6.
#[test]
fn guests_are_made(rt: HostRuntime) -> Result<(), Fail> {
    let alloc = rt.alloc();
    let mut code = Vec::new(alloc);
    for word in &WORDS {
        code.extend_from_slice(&word.to_le_bytes())?;
    }
    let guest = image(alloc, 0)?;
    assert_eq!(rt; guest.segments.len(), 1);
    for segment in guest.segments.as_slice() {
        assert!(rt; segment.bytes.as_slice() == code.as_slice());
    }
    let bytes = secret(alloc, 6)?;
    assert_eq!(rt;
        bytes.as_slice(),
        [61, 210, 237, 227, 98, 27, 238].as_slice()
    );
    Ok(())
}
