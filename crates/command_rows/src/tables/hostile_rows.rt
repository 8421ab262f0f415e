//! What somebody who wants a wrong number may try: files that are not there, sinks that are full, files at the edges of
//! their formats, and guests at the edges of memory and of turns.

use super::Content::{Code, Raw, Text};
use super::Failing::{Load, Nothing, Put};
use super::Row;
use super::cuts::NO_BITS;
use super::guests::{BRANCH, LOW};

/// A segment whose memory ends past the address space.
const LONG_MEMORY: [u8; 96] = [
    0x7f, 0x45, 0x4c, 0x46, 1, 1, 1, 0, 0, 0, 0, 0, 0, 0, 0, 0, 2, 0, 243, 0, 1, 0, 0, 0, 0, 0, 1,
    0, 52, 0, 0, 0, 0, 0, 0, 0, 0, 0, 0, 0, 52, 0, 32, 0, 1, 0, 0, 0, 0, 0, 0, 0, 1, 0, 0, 0, 84,
    0, 0, 0, 0, 0, 1, 0, 0, 0, 1, 0, 12, 0, 0, 0, 255, 255, 255, 255, 7, 0, 0, 0, 1, 0, 0, 0, 0x13,
    5, 0, 0, 0x93, 8, 0xd0, 5, 0x73, 0, 0, 0,
];

/// Program headers that begin 16 bytes before the end of 32 bits.
const FAR_HEADERS: [u8; 96] = [
    0x7f, 0x45, 0x4c, 0x46, 1, 1, 1, 0, 0, 0, 0, 0, 0, 0, 0, 0, 2, 0, 243, 0, 1, 0, 0, 0, 0, 0, 1,
    0, 240, 255, 255, 255, 0, 0, 0, 0, 0, 0, 0, 0, 52, 0, 32, 0, 1, 0, 0, 0, 0, 0, 0, 0, 1, 0, 0,
    0, 84, 0, 0, 0, 0, 0, 1, 0, 0, 0, 1, 0, 12, 0, 0, 0, 12, 0, 0, 0, 7, 0, 0, 0, 1, 0, 0, 0, 0x13,
    5, 0, 0, 0x93, 8, 0xd0, 5, 0x73, 0, 0, 0,
];

/// A jump to the address 4 bytes before the base of memory.
const JUMP_BELOW: [u32; 1] = [0xffdf_f06f];

/// A jump to itself.
const ENDLESS: [u32; 1] = [0x0000_006f];

/// Writes 4,294,967,295 bytes from the base of memory on, and exits whatever was answered.
const WRITE_ALL: [u32; 8] = [
    0x0010_0513, // 0x10000 addi a0,x0,1
    0x0001_05b7, // 0x10004 lui a1,0x10
    0xfff0_0613, // 0x10008 addi a2,x0,-1
    0x0400_0893, // 0x1000c addi a7,x0,64
    0x0000_0073, // 0x10010 ecall
    0x0000_0513, // 0x10014 addi a0,x0,0
    0x05d0_0893, // 0x10018 addi a7,x0,93
    0x0000_0073, // 0x1001c ecall
];

/// A list of no visits.
const EMPTY_RUN: &str =
    "flowcheck-cut 1\nsecret 1\nbits 1\npoint 0 0x00010018 rs 0*0x00000001 rest 0x00000001\nend\n";

/// A secret of one byte more than a guest can read.
const LONG_SECRET: &str =
    "flowcheck-cut 1\nsecret 65537\nbits 1\npoint 0 0x00010018 rs 1*0x00000001 rest 0x00000001\nend\n";

const SKIPPED: &str = "flowcheck-cut 1\nsecret 1\nbits 0\nskip 1\nend\n";

const NO_WAY: &str = "{\"regions\":[{\"id\":1,\"enter\":\"0x10018\",\"leave\":\"0x10018\"}]}";

const BEHIND_A_LOOP: &str =
    "{\"regions\":[{\"id\":1,\"enter\":\"0x10000\",\"leave\":\"0x10004\"}]}";

/// A range whose offset is the last of 32 bits.
const RANGE_AT_THE_END: &str =
    "{\"regions\":[{\"id\":1,\"enter\":\"0x10018\",\"leave\":\"0x10024\",\
    \"outs\":[\"t1\"],\"ranges\":[{\"offset\":4294967295,\"length\":2}]}]}";

/// Loads and puts that fail.
pub const FAILING: [Row; 4] = [
    Row {
        name: "the load of the regions fails",
        words: "measure p q s --regions r",
        files: &[
            ("p", Code(&LOW)),
            ("q", Text("")),
            ("s", Raw(&[7])),
            ("r", Text("{\"regions\":[]}")),
        ],
        failing: Load(3),
        loads: 3,
        status: 5,
        text: Text("refused 5 load r\n"),
    },
    Row {
        name: "the load of the second secret fails",
        words: "check p q c 0 s1 s2",
        files: &[
            ("p", Code(&LOW)),
            ("q", Text("")),
            ("c", Text(NO_BITS)),
            ("s1", Raw(&[7])),
            ("s2", Raw(&[7])),
        ],
        failing: Load(5),
        loads: 5,
        status: 5,
        text: Text("refused 5 load s2\n"),
    },
    Row {
        name: "the program's fault is told before that of the cut",
        words: "check prog public cut 0 s7",
        files: &[("prog", Raw(&[0])), ("cut", Text("x"))],
        failing: Nothing,
        loads: 4,
        status: 3,
        text: Text("refused 3 program truncated need 52 have 1\n"),
    },
    Row {
        name: "a refusal that cannot be put",
        words: "measure a b",
        files: &[],
        failing: Put(0),
        loads: 0,
        status: 7,
        text: Text(""),
    },
];

/// Files at the edges of their formats.
pub const FILES: [Row; 6] = [
    Row {
        name: "a segment is longer than memory",
        words: "measure prog public s7",
        files: &[("prog", Raw(&LONG_MEMORY))],
        failing: Nothing,
        loads: 3,
        status: 3,
        text: Text("refused 3 program segment 0\n"),
    },
    Row {
        name: "the program headers would end past 32 bits",
        words: "measure prog public s7",
        files: &[("prog", Raw(&FAR_HEADERS))],
        failing: Nothing,
        loads: 3,
        status: 3,
        text: Text("refused 3 program truncated need 4294967312 have 96\n"),
    },
    Row {
        name: "a list of no visits",
        words: "check prog public cut 1 s7",
        files: &[("prog", Code(&LOW)), ("cut", Text(EMPTY_RUN))],
        failing: Nothing,
        loads: 4,
        status: 3,
        text: Text("refused 3 cut line 4\n"),
    },
    Row {
        name: "a secret of 65,537 bytes",
        words: "check prog public cut 1 s7",
        files: &[("prog", Code(&LOW)), ("cut", Text(LONG_SECRET))],
        failing: Nothing,
        loads: 4,
        status: 3,
        text: Text("refused 3 cut line 2\n"),
    },
    Row {
        name: "a list of regions that is not ended",
        words: "measure prog public s7 --regions r",
        files: &[("prog", Code(&LOW)), ("r", Text("["))],
        failing: Nothing,
        loads: 4,
        status: 3,
        text: Text("refused 3 regions json\n"),
    },
    Row {
        name: "a region that is left where it is entered",
        words: "measure prog public s7 --regions r",
        files: &[("prog", Code(&LOW)), ("r", Text(NO_WAY))],
        failing: Nothing,
        loads: 4,
        status: 3,
        text: Text("refused 3 regions same-address 1\n"),
    },
];

/// Guests at the edges of memory and of turns.
pub const GUESTS: [Row; 6] = [
    Row {
        name: "a measured jump below memory",
        words: "measure prog public s7",
        files: &[("prog", Code(&JUMP_BELOW))],
        failing: Nothing,
        loads: 3,
        status: 4,
        text: Text("refused 4 fetch-outside 0x0000fffc\n"),
    },
    Row {
        name: "a checked jump below memory",
        words: "check prog public cut 0 s7",
        files: &[("prog", Code(&JUMP_BELOW)), ("cut", Text(NO_BITS))],
        failing: Nothing,
        loads: 4,
        status: 1,
        text: Text("rejected 1 guest fetch-outside 0x0000fffc\nchecked 1 accepted 0 budget 0\n"),
    },
    Row {
        name: "an endless loop is measured",
        words: "measure prog public s7 --turns 20",
        files: &[("prog", Code(&ENDLESS))],
        failing: Nothing,
        loads: 3,
        status: 4,
        text: Text("refused 4 turns 20\n"),
    },
    Row {
        name: "an endless loop inside a skipped region is checked",
        words: "check prog public cut 0 s7 --turns 20 --regions r",
        files: &[
            ("prog", Code(&ENDLESS)),
            ("cut", Text(SKIPPED)),
            ("r", Text(BEHIND_A_LOOP)),
        ],
        failing: Nothing,
        loads: 5,
        status: 1,
        text: Text("rejected 1 turns 20\nchecked 1 accepted 0 budget 0\n"),
    },
    Row {
        name: "a range goes past the end of 32 bits",
        words: "measure prog public s7 --regions r",
        files: &[("prog", Code(&BRANCH)), ("r", Text(RANGE_AT_THE_END))],
        failing: Nothing,
        loads: 4,
        status: 4,
        text: Text("refused 4 region 1 range 0 outside\n"),
    },
    Row {
        name: "a write of more bytes than memory has",
        words: "check prog public cut 0 s7",
        files: &[("prog", Code(&WRITE_ALL)), ("cut", Text(NO_BITS))],
        failing: Nothing,
        loads: 4,
        status: 0,
        text: Text(
            "accepted 1 bits 0 crossing - output 0 status 0\nchecked 1 accepted 1 budget 0\n",
        ),
    },
];
