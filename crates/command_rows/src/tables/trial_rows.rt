//! Trials: the lines that are told, and one that is assembled, measured and checked step by step.

use super::Content::{Code, Raw, Text};
use super::Failing::Nothing;
use super::Row;

/// The program of the trial 6, which keeps 7, 1, 2, 3, 4, 5 and 6 bits of seven bytes.
const SOURCE: &str = "addi a0,x0,3\nlui a1,0x80\naddi a2,x0,2000\naddi a7,x0,63\necall\n\
    lbu t1,0(a1)\nandi t1,t1,127\nsb t1,0(a1)\nlbu t1,1(a1)\nandi t1,t1,1\nsb t1,1(a1)\n\
    lbu t1,2(a1)\nandi t1,t1,3\nsb t1,2(a1)\nlbu t1,3(a1)\nandi t1,t1,7\nsb t1,3(a1)\n\
    lbu t1,4(a1)\nandi t1,t1,15\nsb t1,4(a1)\nlbu t1,5(a1)\nandi t1,t1,31\nsb t1,5(a1)\n\
    lbu t1,6(a1)\nandi t1,t1,63\nsb t1,6(a1)\naddi a2,a0,0\naddi a0,x0,1\naddi a7,x0,64\necall\n\
    addi a0,x0,0\naddi a7,x0,93\necall\n";

/// Its code.
const CODE: [u32; 33] = [
    0x0030_0513,
    0x0008_05b7,
    0x7d00_0613,
    0x03f0_0893,
    0x0000_0073,
    0x0005_c303,
    0x07f3_7313,
    0x0065_8023,
    0x0015_c303,
    0x0013_7313,
    0x0065_80a3,
    0x0025_c303,
    0x0033_7313,
    0x0065_8123,
    0x0035_c303,
    0x0073_7313,
    0x0065_81a3,
    0x0045_c303,
    0x00f3_7313,
    0x0065_8223,
    0x0055_c303,
    0x01f3_7313,
    0x0065_82a3,
    0x0065_c303,
    0x03f3_7313,
    0x0065_8323,
    0x0005_0613,
    0x0010_0513,
    0x0400_0893,
    0x0000_0073,
    0x0000_0513,
    0x05d0_0893,
    0x0000_0073,
];

/// Its secret.
const SECRET: [u8; 7] = [61, 210, 237, 227, 98, 27, 238];

/// The kept bits at the results of its masks.
const CUT: &str =
    "flowcheck-cut 1\nsecret 7\nbits 28\npoint 0 0x00010018 rs 1*0x0000007f rest 0x0000007f\n\
    point 0 0x00010024 rs 1*0x00000001 rest 0x00000001\n\
    point 0 0x00010030 rs 1*0x00000003 rest 0x00000003\n\
    point 0 0x0001003c rs 1*0x00000007 rest 0x00000007\n\
    point 0 0x00010048 rs 1*0x0000000f rest 0x0000000f\n\
    point 0 0x00010054 rs 1*0x0000001f rest 0x0000001f\n\
    point 0 0x00010060 rs 1*0x0000003f rest 0x0000003f\nend\n";

pub const ROWS: [Row; 9] = [
    Row {
        name: "a trial of one byte",
        words: "trial 0",
        files: &[],
        failing: Nothing,
        loads: 0,
        status: 0,
        text: Text("trial 0 secret 1 bits 1 points 6 cut 1 turns 15 crossing 1 output 1\n"),
    },
    Row {
        name: "a trial of seven bytes",
        words: "trial 6",
        files: &[],
        failing: Nothing,
        loads: 0,
        status: 0,
        text: Text("trial 6 secret 7 bits 28 points 30 cut 7 turns 33 crossing 28 output 7\n"),
    },
    Row {
        name: "a trial without a number",
        words: "trial",
        files: &[],
        failing: Nothing,
        loads: 0,
        status: 2,
        text: Text("refused 2 usage\n"),
    },
    Row {
        name: "a number with a leading zero",
        words: "trial 06",
        files: &[],
        failing: Nothing,
        loads: 0,
        status: 2,
        text: Text("refused 2 usage\n"),
    },
    Row {
        name: "a number above the highest",
        words: "trial 4294967296",
        files: &[],
        failing: Nothing,
        loads: 0,
        status: 2,
        text: Text("refused 2 usage\n"),
    },
    Row {
        name: "an option of a trial",
        words: "trial 6 --rules 1",
        files: &[],
        failing: Nothing,
        loads: 0,
        status: 2,
        text: Text("refused 2 usage\n"),
    },
    Row {
        name: "the program of a trial is assembled",
        words: "asm source",
        files: &[("source", Text(SOURCE))],
        failing: Nothing,
        loads: 1,
        status: 0,
        text: Code(&CODE),
    },
    Row {
        name: "the program of a trial is measured",
        words: "measure prog public secret",
        files: &[("prog", Code(&CODE)), ("secret", Raw(&SECRET))],
        failing: Nothing,
        loads: 3,
        status: 0,
        text: Text(CUT),
    },
    Row {
        name: "a trial is accepted with its cut and its number",
        words: "check prog public cut 28 secret",
        files: &[
            ("prog", Code(&CODE)),
            ("cut", Text(CUT)),
            ("secret", Raw(&SECRET)),
        ],
        failing: Nothing,
        loads: 4,
        status: 0,
        text: Text(
            "accepted 1 bits 28 crossing 3d4db60b output 7 status 0\nchecked 1 accepted 1 budget 28\n",
        ),
    },
];
