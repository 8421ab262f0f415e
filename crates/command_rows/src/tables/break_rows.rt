//! Regions that the replay runs and skips, and each break of a region.

use super::Content::{Code, Text};
use super::Failing::Nothing;
use super::Row;
use super::cuts::NO_BITS;
use super::guests::{BRANCH, COUNT, ECHO};

/// The decision of `BRANCH`, inside region 1.
const DECISION: &str =
    "flowcheck-cut 1\nsecret 1\nbits 1\npoint 1 0x0001001c de rest 0x00000001\nend\n";

/// The count of `COUNT` after region 1, which is skipped.
const SKIPPED: &str =
    "flowcheck-cut 1\nsecret 1\nbits 2\nskip 1\npoint 0 0x00010034 rs rest 0x00000003\nend\n";

const SKIPPED_ALONE: &str = "flowcheck-cut 1\nsecret 1\nbits 0\nskip 1\nend\n";

pub const COUNTED: &str =
    r#"{"regions":[{"id":1,"enter":"0x10018","leave":"0x10034","outs":["t0","t1","t2"]}]}"#;

/// What crosses, and what a skip alone leaves.
pub const CROSSINGS: [Row; 4] = [
    Row {
        name: "a decision crosses inside a region",
        words: "check prog public cut 1 s3 --regions r",
        files: &[
            ("prog", Code(&BRANCH)),
            ("cut", Text(DECISION)),
            (
                "r",
                Text(r#"{"regions":[{"id":1,"enter":"0x10018","leave":"0x10024","outs":["t1"]}]}"#),
            ),
        ],
        failing: Nothing,
        loads: 5,
        status: 0,
        text: Text(
            "accepted 1 bits 1 crossing 01 output 1 status 0\nchecked 1 accepted 1 budget 1\n",
        ),
    },
    Row {
        name: "a count crosses behind a skipped region",
        words: "check prog public cut 2 s3 --regions r",
        files: &[
            ("prog", Code(&COUNT)),
            ("cut", Text(SKIPPED)),
            ("r", Text(COUNTED)),
        ],
        failing: Nothing,
        loads: 5,
        status: 0,
        text: Text(
            "accepted 1 bits 2 crossing 02 output 1 status 0\nchecked 1 accepted 1 budget 2\n",
        ),
    },
    Row {
        name: "a count has more bits than the budget",
        words: "check prog public cut 1 s3 --regions r",
        files: &[
            ("prog", Code(&COUNT)),
            ("cut", Text(SKIPPED)),
            ("r", Text(COUNTED)),
        ],
        failing: Nothing,
        loads: 5,
        status: 1,
        text: Text("rejected 1 budget 1 needed 2\nchecked 1 accepted 0 budget 1\n"),
    },
    Row {
        name: "a skip alone loses the count",
        words: "check prog public cut 0 s3 --regions r",
        files: &[
            ("prog", Code(&COUNT)),
            ("cut", Text(SKIPPED_ALONE)),
            ("r", Text(COUNTED)),
        ],
        failing: Nothing,
        loads: 5,
        status: 1,
        text: Text("rejected 1 output index 0 real 2 replay 0\nchecked 1 accepted 0 budget 0\n"),
    },
];

/// Each break, and a range of the replay that is outside of guest memory.
pub const BREAKS: [Row; 6] = [
    Row {
        name: "a register that is not declared",
        words: "check prog public cut 0 s3 --regions r",
        files: &[
            ("prog", Code(&BRANCH)),
            ("cut", Text(NO_BITS)),
            (
                "r",
                Text(r#"{"regions":[{"id":1,"enter":"0x10018","leave":"0x10024"}]}"#),
            ),
        ],
        failing: Nothing,
        loads: 5,
        status: 1,
        text: Text(
            "rejected 1 region 1 undeclared x6 at 0x00010018\nchecked 1 accepted 0 budget 0\n",
        ),
    },
    Row {
        name: "a byte that is not declared",
        words: "check prog public cut 1 s3 --regions r",
        files: &[
            ("prog", Code(&BRANCH)),
            ("cut", Text(DECISION)),
            (
                "r",
                Text(r#"{"regions":[{"id":1,"enter":"0x10018","leave":"0x10028","outs":["t1"]}]}"#),
            ),
        ],
        failing: Nothing,
        loads: 5,
        status: 1,
        text: Text(
            "rejected 1 region 1 undeclared 0x00011000 at 0x00010024\nchecked 1 accepted 0 budget 1\n",
        ),
    },
    Row {
        name: "a register that is not kept",
        words: "check prog public cut 1 s3 --regions r",
        files: &[
            ("prog", Code(&BRANCH)),
            ("cut", Text(DECISION)),
            (
                "r",
                Text(r#"{"regions":[{"id":1,"enter":"0x10018","leave":"0x10024","keep":["t1"]}]}"#),
            ),
        ],
        failing: Nothing,
        loads: 5,
        status: 1,
        text: Text(
            "rejected 1 region 1 keep x6 before 0x00000000 after 0x00000059\n\
                checked 1 accepted 0 budget 1\n",
        ),
    },
    Row {
        name: "a call inside a region",
        words: "check prog public cut 0 s3 --regions r",
        files: &[
            ("prog", Code(&ECHO)),
            ("cut", Text(NO_BITS)),
            (
                "r",
                Text(
                    r#"{"regions":[{"id":1,"enter":"0x10014","leave":"0x10020","outs":["a0","a7"]}]}"#,
                ),
            ),
        ],
        failing: Nothing,
        loads: 5,
        status: 1,
        text: Text("rejected 1 region 1 call at 0x0001001c\nchecked 1 accepted 0 budget 0\n"),
    },
    Row {
        name: "a range outside of memory",
        words: "check prog public cut 0 s3 --regions r",
        files: &[
            ("prog", Code(&BRANCH)),
            ("cut", Text(NO_BITS)),
            (
                "r",
                Text(
                    r#"{"regions":[{"id":1,"enter":"0x10018","leave":"0x10024","ranges":[{"length":1}]}]}"#,
                ),
            ),
        ],
        failing: Nothing,
        loads: 5,
        status: 1,
        text: Text("rejected 1 region 1 range 0 outside\nchecked 1 accepted 0 budget 0\n"),
    },
    Row {
        name: "a range of the replay outside of memory",
        words: "check prog public cut 0 s3 --regions r",
        files: &[
            ("prog", Code(&BRANCH)),
            ("cut", Text(NO_BITS)),
            (
                "r",
                Text(
                    r#"{"regions":[{"id":1,"enter":"0x10018","leave":"0x10024",
                "ranges":[{"base":"t0","offset":65533,"length":1}]}]}"#,
                ),
            ),
        ],
        failing: Nothing,
        loads: 5,
        status: 1,
        text: Text("rejected 1 replay region 1 range 0 outside\nchecked 1 accepted 0 budget 0\n"),
    },
];
