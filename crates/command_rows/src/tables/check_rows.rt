//! Checks of secrets: what is accepted, rejected and refused.

use super::Content::{Code, Head, Text, Zeros};
use super::Failing::{Load, Nothing, Put};
use super::cuts::{ALL_BITS, LOWEST, NO_BITS, OUT, TRAILING};
use super::guests::{ECHO, EXIT, LOW, OUTSIDE};
use super::{Content, Row};

const LOW_ALL: [(&str, Content); 2] = [("prog", Code(&LOW)), ("cut", Text(ALL_BITS))];

const EXIT_NO: [(&str, Content); 2] = [("prog", Code(&EXIT)), ("cut", Text(NO_BITS))];

/// Secrets of one call are judged each by itself, and counted.
pub const JUDGED: [Row; 4] = [
    Row {
        name: "all bits of the secret cross",
        words: "check prog public cut 8 s3",
        files: &LOW_ALL,
        failing: Nothing,
        loads: 4,
        status: 0,
        text: Text(
            "accepted 1 bits 8 crossing 03 output 1 status 0\nchecked 1 accepted 1 budget 8\n",
        ),
    },
    Row {
        name: "each secret has its own bits",
        words: "check prog public cut 8 s3 s5 s4",
        files: &LOW_ALL,
        failing: Nothing,
        loads: 6,
        status: 0,
        text: Text(
            "accepted 1 bits 8 crossing 03 output 1 status 0\n\
                accepted 2 bits 8 crossing 05 output 1 status 0\n\
                accepted 3 bits 8 crossing 04 output 1 status 0\nchecked 3 accepted 3 budget 8\n",
        ),
    },
    Row {
        name: "one bit crosses, behind the mask",
        words: "check prog public cut 1 s3 s4",
        files: &[("prog", Code(&LOW)), ("cut", Text(LOWEST))],
        failing: Nothing,
        loads: 5,
        status: 0,
        text: Text(
            "accepted 1 bits 1 crossing 01 output 1 status 0\n\
                accepted 2 bits 1 crossing 00 output 1 status 0\nchecked 2 accepted 2 budget 1\n",
        ),
    },
    Row {
        name: "a secret of another length",
        words: "check prog public cut 8 s3 s34",
        files: &LOW_ALL,
        failing: Nothing,
        loads: 5,
        status: 1,
        text: Text(
            "accepted 1 bits 8 crossing 03 output 1 status 0\n\
                rejected 2 secret-length cut 1 got 2\nchecked 2 accepted 1 budget 8\n",
        ),
    },
];

/// Each reason for which a secret is rejected is told in its line.
pub const REJECTED: [Row; 7] = [
    Row {
        name: "more bits than the budget",
        words: "check prog public cut 7 s65",
        files: &[("prog", Code(&ECHO)), ("cut", Text(ALL_BITS))],
        failing: Nothing,
        loads: 4,
        status: 1,
        text: Text("rejected 1 budget 7 needed 8\nchecked 1 accepted 0 budget 7\n"),
    },
    Row {
        name: "the output gives bits away",
        words: "check prog public cut 0 s65",
        files: &[("prog", Code(&ECHO)), ("cut", Text(NO_BITS))],
        failing: Nothing,
        loads: 4,
        status: 1,
        text: Text("rejected 1 output index 0 real 65 replay 0\nchecked 1 accepted 0 budget 0\n"),
    },
    Row {
        name: "the guest is stopped",
        words: "check prog public cut 0 s65",
        files: &[("prog", Code(&OUTSIDE)), ("cut", Text(NO_BITS))],
        failing: Nothing,
        loads: 4,
        status: 1,
        text: Text(
            "rejected 1 guest load-outside 0x00010000 address 0x00000000\n\
                checked 1 accepted 0 budget 0\n",
        ),
    },
    Row {
        name: "half of the written byte crosses",
        words: "check prog public cut 4 s65",
        files: &[("prog", Code(&ECHO)), ("cut", Text(OUT))],
        failing: Nothing,
        loads: 4,
        status: 1,
        text: Text("rejected 1 output index 0 real 65 replay 1\nchecked 1 accepted 0 budget 4\n"),
    },
    Row {
        name: "one turn too few",
        words: "check prog public cut 0 s3 --turns 2",
        files: &EXIT_NO,
        failing: Nothing,
        loads: 4,
        status: 1,
        text: Text("rejected 1 turns 2\nchecked 1 accepted 0 budget 0\n"),
    },
    Row {
        name: "just enough turns",
        words: "check prog public cut 0 s3 --turns 3",
        files: &EXIT_NO,
        failing: Nothing,
        loads: 4,
        status: 0,
        text: Text(
            "accepted 1 bits 0 crossing - output 0 status 0\nchecked 1 accepted 1 budget 0\n",
        ),
    },
    Row {
        name: "no bit crosses",
        words: "check prog public cut 0 s65 s3",
        files: &EXIT_NO,
        failing: Nothing,
        loads: 5,
        status: 0,
        text: Text(
            "accepted 1 bits 0 crossing - output 0 status 0\n\
                accepted 2 bits 0 crossing - output 0 status 0\nchecked 2 accepted 2 budget 0\n",
        ),
    },
];

/// Words that are no command, files that are none, and loads and puts that fail.
pub const REFUSED: [Row; 11] = [
    Row {
        name: "no secret",
        words: "check prog public cut 8",
        files: &LOW_ALL,
        failing: Nothing,
        loads: 0,
        status: 2,
        text: Text("refused 2 usage\n"),
    },
    Row {
        name: "65 secrets",
        words: "check prog public cut 8 s3 s3 s3 s3 s3 s3 s3 s3 s3 s3 s3 s3 s3 s3 s3 s3 s3 s3 s3 s3 s3 s3 \
            s3 s3 s3 s3 s3 s3 s3 s3 s3 s3 s3 s3 s3 s3 s3 s3 s3 s3 s3 s3 s3 s3 s3 s3 s3 s3 s3 s3 s3 s3 \
            s3 s3 s3 s3 s3 s3 s3 s3 s3 s3 s3 s3 s3",
        files: &LOW_ALL,
        failing: Nothing,
        loads: 0,
        status: 2,
        text: Text("refused 2 usage\n"),
    },
    Row {
        name: "a limit of no turns",
        words: "check prog public cut 8 s3 --turns 0",
        files: &LOW_ALL,
        failing: Nothing,
        loads: 0,
        status: 2,
        text: Text("refused 2 usage\n"),
    },
    Row {
        name: "half a program",
        words: "check prog public cut 8 s3",
        files: &[("prog", Head(51)), ("cut", Text(ALL_BITS))],
        failing: Nothing,
        loads: 4,
        status: 3,
        text: Text("refused 3 program truncated need 52 have 51\n"),
    },
    Row {
        name: "a cut with a byte behind it",
        words: "check prog public cut 8 s3",
        files: &[("prog", Code(&LOW)), ("cut", Text(TRAILING))],
        failing: Nothing,
        loads: 4,
        status: 3,
        text: Text("refused 3 cut trailing 36\n"),
    },
    Row {
        name: "a cut that is not whole",
        words: "check prog public cut 8 s3",
        files: &[("prog", Code(&LOW)), ("cut", Text("flowcheck-cut 1\n"))],
        failing: Nothing,
        loads: 4,
        status: 3,
        text: Text("refused 3 cut truncated\n"),
    },
    Row {
        name: "the bytes of a name: a line feed, DEL and a letter that is no ASCII",
        words: "check p\nq\u{7f}\u{e9} public cut 8 s3",
        files: &LOW_ALL,
        failing: Nothing,
        loads: 1,
        status: 5,
        text: Text("refused 5 load p\\x0aq\\x7f\u{e9}\n"),
    },
    Row {
        name: "a name that is not held",
        words: "check prog public cut 8 s9",
        files: &LOW_ALL,
        failing: Nothing,
        loads: 4,
        status: 5,
        text: Text("refused 5 load s9\n"),
    },
    Row {
        name: "a load that fails",
        words: "check prog public cut 8 s3",
        files: &LOW_ALL,
        failing: Load(2),
        loads: 2,
        status: 5,
        text: Text("refused 5 load public\n"),
    },
    Row {
        name: "a public input above its limit",
        words: "check prog large cut 8 s3",
        files: &[
            ("prog", Code(&LOW)),
            ("cut", Text(ALL_BITS)),
            ("large", Zeros(1_048_577)),
        ],
        failing: Nothing,
        loads: 2,
        status: 6,
        text: Text("refused 6 too-large large 1048577\n"),
    },
    Row {
        name: "a put that takes 5 bytes",
        words: "check prog public cut 8",
        files: &LOW_ALL,
        failing: Put(5),
        loads: 0,
        status: 7,
        text: Text("refus"),
    },
];
