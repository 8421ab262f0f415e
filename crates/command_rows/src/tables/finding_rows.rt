//! Checks of secrets with one machine: what is clean, unclear and refused.

use super::Content::{Code, Text};
use super::Failing::Nothing;
use super::cuts::{ALL_BITS, LOWEST, NO_BITS};
use super::guests::{BRANCH, ECHO, LOW};
use super::{Content, Row};

const LOW_LOWEST: [(&str, Content); 2] = [("prog", Code(&LOW)), ("cut", Text(LOWEST))];

/// Reads a secret byte, and writes its difference from itself.
const DIFFERENCE: [u32; 14] = [
    0x0030_0513,
    0x0001_15b7,
    0x0010_0613,
    0x03f0_0893,
    0x0000_0073,
    0x0005_c283,
    0x0052_c2b3,
    0x0055_8023,
    0x0010_0513,
    0x0400_0893,
    0x0000_0073,
    0x0000_0513,
    0x05d0_0893,
    0x0000_0073,
];

/// Each secret is followed by itself, and counted.
pub const CLEAN: [Row; 3] = [
    Row {
        name: "a bit crosses before it decides",
        words: "taint prog public cut 1 s5",
        files: &LOW_LOWEST,
        failing: Nothing,
        loads: 4,
        status: 0,
        text: Text("clean 1 bits 1 crossing 01 output 1 status 0\nchecked 1 clean 1 budget 1\n"),
    },
    Row {
        name: "each clean secret has its own bits",
        words: "taint prog public cut 1 s3 s5 s4 --rules 2",
        files: &LOW_LOWEST,
        failing: Nothing,
        loads: 6,
        status: 0,
        text: Text(
            "clean 1 bits 1 crossing 01 output 1 status 0\n\
                clean 2 bits 1 crossing 01 output 1 status 0\n\
                clean 3 bits 1 crossing 00 output 1 status 0\nchecked 3 clean 3 budget 1\n",
        ),
    },
    Row {
        name: "a secret of another length is unclear",
        words: "taint prog public cut 1 s3 s34",
        files: &LOW_LOWEST,
        failing: Nothing,
        loads: 5,
        status: 1,
        text: Text(
            "clean 1 bits 1 crossing 01 output 1 status 0\n\
                unclear 2 secret-length cut 1 got 2\nchecked 2 clean 1 budget 1\n",
        ),
    },
];

/// Bits that are left where they decide, and more bits than the budget.
pub const UNCLEAR: [Row; 5] = [
    Row {
        name: "a secret byte is written",
        words: "taint prog public cut 0 s65",
        files: &[("prog", Code(&ECHO)), ("cut", Text(NO_BITS))],
        failing: Nothing,
        loads: 4,
        status: 1,
        text: Text("unclear 1 left 0 0x0001001c ou mask 0x000000ff\nchecked 1 clean 0 budget 0\n"),
    },
    Row {
        name: "a check of the same two runs accepts",
        words: "check prog public cut 0 s65",
        files: &[("prog", Code(&DIFFERENCE)), ("cut", Text(NO_BITS))],
        failing: Nothing,
        loads: 4,
        status: 0,
        text: Text(
            "accepted 1 bits 0 crossing - output 1 status 0\nchecked 1 accepted 1 budget 0\n",
        ),
    },
    Row {
        name: "masks do not know that a difference is 0",
        words: "taint prog public cut 0 s65",
        files: &[("prog", Code(&DIFFERENCE)), ("cut", Text(NO_BITS))],
        failing: Nothing,
        loads: 4,
        status: 1,
        text: Text("unclear 1 left 0 0x00010028 ou mask 0x000000ff\nchecked 1 clean 0 budget 0\n"),
    },
    Row {
        name: "more bits cross than the budget of a check with masks",
        words: "taint prog public cut 7 s3",
        files: &[("prog", Code(&LOW)), ("cut", Text(ALL_BITS))],
        failing: Nothing,
        loads: 4,
        status: 1,
        text: Text("unclear 1 budget 7 needed 8\nchecked 1 clean 0 budget 7\n"),
    },
    Row {
        name: "no turn is left for a check with masks",
        words: "taint prog public cut 1 s3 --turns 3",
        files: &LOW_LOWEST,
        failing: Nothing,
        loads: 4,
        status: 1,
        text: Text("unclear 1 turns 3\nchecked 1 clean 0 budget 1\n"),
    },
];

const BRANCH_CUT: &str =
    "flowcheck-cut 1\nsecret 1\nbits 1\npoint 1 0x0001001c de 1*0x00000001 rest 0x00000001\nend\n";

const BRANCH_REGION: &str =
    r#"{"regions":[{"id":1,"enter":"0x10018","leave":"0x10024","outs":["t1"]}]}"#;

/// With regions, and what is refused as it is of a check.
pub const REGIONS: [Row; 4] = [
    Row {
        name: "a branch inside a region is clean by the bit that crosses there",
        words: "taint prog public cut 1 s7 --regions r",
        files: &[
            ("prog", Code(&BRANCH)),
            ("cut", Text(BRANCH_CUT)),
            ("r", Text(BRANCH_REGION)),
        ],
        failing: Nothing,
        loads: 5,
        status: 0,
        text: Text("clean 1 bits 1 crossing 01 output 1 status 0\nchecked 1 clean 1 budget 1\n"),
    },
    Row {
        name: "a cut with a byte behind it is no cut for masks",
        words: "taint prog public cut 0 s7",
        files: &[("prog", Code(&LOW)), ("cut", Text("flowcheck-cut 1\nend"))],
        failing: Nothing,
        loads: 4,
        status: 3,
        text: Text("refused 3 cut truncated\n"),
    },
    Row {
        name: "a secret that is not held is not followed",
        words: "taint prog public cut 0 none",
        files: &LOW_LOWEST,
        failing: Nothing,
        loads: 4,
        status: 5,
        text: Text("refused 5 load none\n"),
    },
    Row {
        name: "there is no fourth table of mask rules",
        words: "taint prog public cut 0 s3 --rules 4",
        files: &LOW_LOWEST,
        failing: Nothing,
        loads: 0,
        status: 2,
        text: Text("refused 2 usage\n"),
    },
];
