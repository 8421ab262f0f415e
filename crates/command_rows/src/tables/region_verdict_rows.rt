//! Verdicts on secrets with regions that are run and skipped.

use super::Content::{Code, Raw, Text};
use super::Failing::Nothing;
use super::Row;
use super::cuts::NO_BITS;
use super::guests::{BRANCH, COUNT};
use super::verdict_guests::{NEXT, PAIR, PUNCTUATION, TWICE};

const SKIPPED_ALONE: &str = "flowcheck-cut 1\nsecret 1\nbits 0\nskip 1\nend\n";

const DECISION: &str =
    "flowcheck-cut 1\nsecret 1\nbits 1\npoint 1 0x0001001c de 1*0x00000001 rest 0x00000001\n\
                end\n";

const COUNTED_CUT: &str = "flowcheck-cut 1\nsecret 1\nbits 2\nskip 1\n\
                point 0 0x00010034 rs 1*0x00000003 rest 0x00000003\nend\n";

/// Regions that are run: their points count, and the entry and the leave are turns.
pub const RUN: [Row; 5] = [
    Row {
        name: "a region that is run, in 16 turns at most, the entry and the leave",
        words: "check prog public cut 1 t1 s7 --turns 18 --regions r",
        files: &[
            ("prog", Code(&BRANCH)),
            ("cut", Text(DECISION)),
            (
                "r",
                Text(r#"{"regions":[{"id":1,"enter":"0x10018","leave":"0x10024","outs":["t1"]}]}"#),
            ),
            ("t1", Raw(&[0x00])),
        ],
        failing: Nothing,
        loads: 6,
        status: 0,
        text: Text(
            "accepted 1 bits 1 crossing 00 output 1 status 0\n\
                accepted 2 bits 1 crossing 01 output 1 status 0\nchecked 2 accepted 2 budget 1\n",
        ),
    },
    Row {
        name: "15 turns, the entry and the leave are enough for the other secret",
        words: "check prog public cut 1 s7 --turns 17 --regions r",
        files: &[
            ("prog", Code(&BRANCH)),
            ("cut", Text(DECISION)),
            (
                "r",
                Text(r#"{"regions":[{"id":1,"enter":"0x10018","leave":"0x10024","outs":["t1"]}]}"#),
            ),
        ],
        failing: Nothing,
        loads: 5,
        status: 0,
        text: Text(
            "accepted 1 bits 1 crossing 01 output 1 status 0\nchecked 1 accepted 1 budget 1\n",
        ),
    },
    Row {
        name: "a number that is skipped and not in the list changes nothing",
        words: "check prog public cut 1 s7 --turns 1000 --regions r",
        files: &[
            ("prog", Code(&BRANCH)),
            (
                "cut",
                Text(
                    "flowcheck-cut 1\nsecret 1\nbits 1\nskip 9\n\
                point 1 0x0001001c de 1*0x00000001 rest 0x00000001\nend\n",
                ),
            ),
            (
                "r",
                Text(r#"{"regions":[{"id":1,"enter":"0x10018","leave":"0x10024","outs":["t1"]}]}"#),
            ),
        ],
        failing: Nothing,
        loads: 5,
        status: 0,
        text: Text(
            "accepted 1 bits 1 crossing 01 output 1 status 0\nchecked 1 accepted 1 budget 1\n",
        ),
    },
    Row {
        name: "a turn too few with a region that is run",
        words: "check prog public cut 1 s7 --turns 16 --regions r",
        files: &[
            ("prog", Code(&BRANCH)),
            ("cut", Text(DECISION)),
            (
                "r",
                Text(r#"{"regions":[{"id":1,"enter":"0x10018","leave":"0x10024","outs":["t1"]}]}"#),
            ),
        ],
        failing: Nothing,
        loads: 5,
        status: 1,
        text: Text("rejected 1 turns 16\nchecked 1 accepted 0 budget 1\n"),
    },
    Row {
        name: "without its bit the replay takes the other way, which is seen in that turn",
        words: "check prog public cut 1 s7 --turns 1000 --regions r",
        files: &[
            ("prog", Code(&BRANCH)),
            ("cut", Text(NO_BITS)),
            (
                "r",
                Text(r#"{"regions":[{"id":1,"enter":"0x10018","leave":"0x10024","outs":["t1"]}]}"#),
            ),
        ],
        failing: Nothing,
        loads: 5,
        status: 1,
        text: Text(
            "rejected 1 parted real 0x00010024 bits 0 output 0 running replay 0x00010020 bits 0 output 0 running\n\
                checked 1 accepted 0 budget 1\n",
        ),
    },
];

/// Regions that are skipped: what is inside them does not cross, and each of their turns counts.
pub const SKIPPED: [Row; 6] = [
    Row {
        name: "what is inside a skipped region does not count, and each of its turns does",
        words: "check prog public cut 2 t1 t2 --turns 41 --regions r",
        files: &[
            ("prog", Code(&COUNT)),
            ("cut", Text(COUNTED_CUT)),
            (
                "r",
                Text(
                    r#"{"regions":[{"id":1,"enter":"0x10018","leave":"0x10034","outs":["t0","t1","t2"]}]}"#,
                ),
            ),
            ("t1", Raw(&[0x0b])),
            ("t2", Raw(&[0x00])),
        ],
        failing: Nothing,
        loads: 6,
        status: 0,
        text: Text(
            "accepted 1 bits 2 crossing 03 output 1 status 0\n\
                accepted 2 bits 2 crossing 00 output 1 status 0\nchecked 2 accepted 2 budget 2\n",
        ),
    },
    Row {
        name: "another way inside a skipped region",
        words: "check prog public cut 2 t1 --turns 1000 --regions r",
        files: &[
            ("prog", Code(&COUNT)),
            ("cut", Text(COUNTED_CUT)),
            (
                "r",
                Text(
                    r#"{"regions":[{"id":1,"enter":"0x10018","leave":"0x10034","outs":["t0","t1","t2"]}]}"#,
                ),
            ),
            ("t1", Raw(&[0xff])),
        ],
        failing: Nothing,
        loads: 5,
        status: 0,
        text: Text(
            "accepted 1 bits 2 crossing 00 output 1 status 0\nchecked 1 accepted 1 budget 2\n",
        ),
    },
    Row {
        name: "more question marks, and more full stops",
        words: "check prog public cut 5 t1 t2 --turns 1000 --regions r",
        files: &[
            ("prog", Code(&PUNCTUATION)),
            (
                "cut",
                Text(
                    "flowcheck-cut 1\nsecret 8\nbits 5\nskip 1\n\
                point 0 0x00010058 rs 1*0x00000001 rest 0x00000001\n\
                point 0 0x0001005c rs 1*0x0000000f rest 0x0000000f\nend\n",
                ),
            ),
            (
                "r",
                Text(
                    r#"{"regions":[{"id":1,"enter":"0x10018","leave":"0x10058",
                "outs":["s2","s3","s4","t0","t1","t3","t4"]}]}"#,
                ),
            ),
            ("t1", Text("?.?x??a?")),
            ("t2", Text(".......?")),
        ],
        failing: Nothing,
        loads: 6,
        status: 0,
        text: Text(
            "accepted 1 bits 5 crossing 0b output 5 status 0\n\
                accepted 2 bits 5 crossing 0e output 7 status 0\nchecked 2 accepted 2 budget 5\n",
        ),
    },
    Row {
        name: "a turn too few with a skipped region",
        words: "check prog public cut 2 t1 --turns 40 --regions r",
        files: &[
            ("prog", Code(&COUNT)),
            ("cut", Text(COUNTED_CUT)),
            (
                "r",
                Text(
                    r#"{"regions":[{"id":1,"enter":"0x10018","leave":"0x10034","outs":["t0","t1","t2"]}]}"#,
                ),
            ),
            ("t1", Raw(&[0x0b])),
        ],
        failing: Nothing,
        loads: 5,
        status: 1,
        text: Text("rejected 1 turns 40\nchecked 1 accepted 0 budget 2\n"),
    },
    Row {
        name: "where no bit crosses, the outputs of the replay are 0",
        words: "check prog public cut 2 t1 --turns 1000 --regions r",
        files: &[
            ("prog", Code(&COUNT)),
            ("cut", Text(SKIPPED_ALONE)),
            (
                "r",
                Text(
                    r#"{"regions":[{"id":1,"enter":"0x10018","leave":"0x10034","outs":["t0","t1","t2"]}]}"#,
                ),
            ),
            ("t1", Raw(&[0x0b])),
        ],
        failing: Nothing,
        loads: 5,
        status: 1,
        text: Text("rejected 1 output index 0 real 3 replay 0\nchecked 1 accepted 0 budget 2\n"),
    },
    Row {
        name: "the points inside a skipped region are never visited, and those of its outputs are at its leave",
        words: "check prog public cut 2 t1 --turns 1000 --regions r",
        files: &[
            ("prog", Code(&COUNT)),
            (
                "cut",
                Text(
                    "flowcheck-cut 1\nsecret 1\nbits 2\nskip 1\npoint 1 0x00010020 rs rest 0x00000001\n\
                point 1 0x00010034 x6 1*0x00000003 rest 0x00000000\nend\n",
                ),
            ),
            (
                "r",
                Text(
                    r#"{"regions":[{"id":1,"enter":"0x10018","leave":"0x10034","outs":["t0","t1","t2"]}]}"#,
                ),
            ),
            ("t1", Raw(&[0x0b])),
        ],
        failing: Nothing,
        loads: 5,
        status: 0,
        text: Text(
            "accepted 1 bits 2 crossing 03 output 1 status 0\nchecked 1 accepted 1 budget 2\n",
        ),
    },
];

/// What crosses where regions are left.
pub const LEFT: [Row; 5] = [
    Row {
        name: "a byte of two ranges crosses twice",
        words: "check prog public cut 32 s65 --turns 1000 --regions r",
        files: &[
            ("prog", Code(&NEXT)),
            (
                "cut",
                Text(
                    "flowcheck-cut 1\nsecret 1\nbits 32\nskip 1\npoint 1 0x00010020 r0 rest 0x000000ff\n\
                point 1 0x00010020 r1 rest 0x000000ff\nend\n",
                ),
            ),
            (
                "r",
                Text(
                    r#"{"regions":[{"id":1,"enter":"0x10014","leave":"0x10020","outs":["t0"],
                "ranges":[{"offset":69632,"length":2},{"offset":69633,"length":2}]}]}"#,
                ),
            ),
        ],
        failing: Nothing,
        loads: 5,
        status: 0,
        text: Text(
            "accepted 1 bits 32 crossing 41424200 output 2 status 0\nchecked 1 accepted 1 budget 32\n",
        ),
    },
    Row {
        name: "the first leave has a mask of its own",
        words: "check prog public cut 16 t1 --turns 1000 --regions r",
        files: &[
            ("prog", Code(&TWICE)),
            (
                "cut",
                Text(
                    "flowcheck-cut 1\nsecret 1\nbits 6\nskip 1\n\
                point 1 0x00010020 x5 1*0x0000000f rest 0x00000003\nend\n",
                ),
            ),
            (
                "r",
                Text(r#"{"regions":[{"id":1,"enter":"0x10018","leave":"0x10020","outs":["t0"]}]}"#),
            ),
            ("t1", Raw(&[0x43])),
        ],
        failing: Nothing,
        loads: 5,
        status: 0,
        text: Text(
            "accepted 1 bits 6 crossing 33 output 1 status 0\nchecked 1 accepted 1 budget 16\n",
        ),
    },
    Row {
        name: "a region that is entered where another is left",
        words: "check prog public cut 16 s7 --turns 1000 --regions r",
        files: &[
            ("prog", Code(&PAIR)),
            (
                "cut",
                Text(
                    "flowcheck-cut 1\nsecret 1\nbits 2\nskip 1\nskip 2\n\
                point 1 0x0001001c x6 rest 0x00000001\npoint 2 0x00010020 x7 rest 0x00000002\nend\n",
                ),
            ),
            (
                "r",
                Text(
                    r#"{"regions":[{"id":1,"enter":"0x10018","leave":"0x1001c","outs":["t1"]},
                {"id":2,"enter":"0x1001c","leave":"0x10020","outs":["t2"]}]}"#,
                ),
            ),
        ],
        failing: Nothing,
        loads: 5,
        status: 0,
        text: Text(
            "accepted 1 bits 2 crossing 03 output 1 status 0\nchecked 1 accepted 1 budget 16\n",
        ),
    },
    Row {
        name: "the first of two is skipped, and the second is run",
        words: "check prog public cut 16 s7 --turns 1000 --regions r",
        files: &[
            ("prog", Code(&PAIR)),
            (
                "cut",
                Text(
                    "flowcheck-cut 1\nsecret 1\nbits 2\nskip 1\npoint 1 0x0001001c x6 rest 0x00000001\n\
                point 2 0x0001001c rs rest 0x00000002\nend\n",
                ),
            ),
            (
                "r",
                Text(
                    r#"{"regions":[{"id":1,"enter":"0x10018","leave":"0x1001c","outs":["t1"]},
                {"id":2,"enter":"0x1001c","leave":"0x10020","outs":["t2"]}]}"#,
                ),
            ),
        ],
        failing: Nothing,
        loads: 5,
        status: 0,
        text: Text(
            "accepted 1 bits 2 crossing 03 output 1 status 0\nchecked 1 accepted 1 budget 16\n",
        ),
    },
    Row {
        name: "the second of two is skipped, and the first is run",
        words: "check prog public cut 16 s7 --turns 1000 --regions r",
        files: &[
            ("prog", Code(&PAIR)),
            (
                "cut",
                Text(
                    "flowcheck-cut 1\nsecret 1\nbits 2\nskip 2\npoint 1 0x00010018 rs rest 0x00000001\n\
                point 2 0x00010020 x7 rest 0x00000002\nend\n",
                ),
            ),
            (
                "r",
                Text(
                    r#"{"regions":[{"id":1,"enter":"0x10018","leave":"0x1001c","outs":["t1"]},
                {"id":2,"enter":"0x1001c","leave":"0x10020","outs":["t2"]}]}"#,
                ),
            ),
        ],
        failing: Nothing,
        loads: 5,
        status: 0,
        text: Text(
            "accepted 1 bits 2 crossing 03 output 1 status 0\nchecked 1 accepted 1 budget 16\n",
        ),
    },
];
