//! Runs on several secrets that are measured together.

use super::Content::{Code, Raw, Text};
use super::Failing::Nothing;
use super::guests::{COUNT, LOW, OUTSIDE};
use super::{Content, Row};

const COUNT_TWO: [(&str, Content); 3] = [
    ("prog", Code(&COUNT)),
    ("s1", Raw(&[1])),
    ("s2", Raw(&[2])),
];

const COUNT_CUT: &str = "flowcheck-cut 1\nsecret 1\nbits 5\n\
    point 0 0x0001001c de 3*0x00000001 rest 0x00000001\n\
    point 0 0x00010020 rs 2*0x00000001 rest 0x00000001\nend\n";

/// One cut for all of them, which is accepted with each.
pub const MEASURED: [Row; 3] = [
    Row {
        name: "the cut of two runs of which one loops longer",
        words: "measure-all prog public s1 s2",
        files: &COUNT_TWO,
        failing: Nothing,
        loads: 4,
        status: 0,
        text: Text(COUNT_CUT),
    },
    Row {
        name: "both runs are accepted with that cut",
        words: "check prog public cut 5 s1 s2",
        files: &[
            ("prog", Code(&COUNT)),
            ("cut", Text(COUNT_CUT)),
            ("s1", Raw(&[1])),
            ("s2", Raw(&[2])),
        ],
        failing: Nothing,
        loads: 5,
        status: 0,
        text: Text(
            "accepted 1 bits 3 crossing 06 output 1 status 0\n\
                accepted 2 bits 5 crossing 18 output 1 status 0\nchecked 2 accepted 2 budget 5\n",
        ),
    },
    Row {
        name: "of one secret it is the cut of its run",
        words: "measure-all prog public s3 --rules 1 --cut=1",
        files: &[("prog", Code(&LOW))],
        failing: Nothing,
        loads: 3,
        status: 0,
        text: Text(
            "flowcheck-cut 1\nsecret 1\nbits 1\n\
                point 0 0x00010018 rs 1*0x00000001 rest 0x00000001\nend\n",
        ),
    },
];

/// The first secret of another length, the first run that is not measured, and what is refused before.
pub const REFUSED: [Row; 4] = [
    Row {
        name: "a secret of another length than the first",
        words: "measure-all prog public s3 s34",
        files: &[("prog", Code(&LOW))],
        failing: Nothing,
        loads: 4,
        status: 4,
        text: Text("refused 4 length 2 first 1 got 2\n"),
    },
    Row {
        name: "the first run that stops",
        words: "measure-all prog public s3 s4",
        files: &[("prog", Code(&OUTSIDE))],
        failing: Nothing,
        loads: 4,
        status: 4,
        text: Text("refused 4 run 1 load-outside 0x00010000 address 0x00000000\n"),
    },
    Row {
        name: "a run that goes on is the second",
        words: "measure-all prog public s0 s3 --turns=16",
        files: &[("prog", Code(&COUNT)), ("s0", Raw(&[0]))],
        failing: Nothing,
        loads: 4,
        status: 4,
        text: Text("refused 4 run 2 turns 16\n"),
    },
    Row {
        name: "runs without a secret are none",
        words: "measure-all prog public",
        files: &[("prog", Code(&LOW))],
        failing: Nothing,
        loads: 0,
        status: 2,
        text: Text("refused 2 usage\n"),
    },
];
