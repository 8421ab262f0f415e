//! Verdicts on secrets with regions that are broken and regions that are not left.

use super::Content::{Code, Raw, Text};
use super::Failing::Nothing;
use super::Row;
use super::cuts::NO_BITS;
use super::guests::{BRANCH, COUNT, ECHO};
use super::verdict_guests::{FAR, NEXT, STOPS, STUCK};

const SKIPPED_ALONE: &str = "flowcheck-cut 1\nsecret 1\nbits 0\nskip 1\nend\n";

const COUNTED_CUT: &str = "flowcheck-cut 1\nsecret 1\nbits 2\nskip 1\n\
                point 0 0x00010034 rs 1*0x00000003 rest 0x00000003\nend\n";

/// Breaks of regions that are run and skipped, and ranges of the replay.
pub const BROKEN: [Row; 9] = [
    Row {
        name: "a break where the region is skipped",
        words: "check prog public cut 16 s7 --turns 1000 --regions r",
        files: &[
            ("prog", Code(&BRANCH)),
            ("cut", Text(SKIPPED_ALONE)),
            (
                "r",
                Text(r#"{"regions":[{"id":1,"enter":"0x10018","leave":"0x10024"}]}"#),
            ),
        ],
        failing: Nothing,
        loads: 5,
        status: 1,
        text: Text(
            "rejected 1 region 1 undeclared x6 at 0x00010018\nchecked 1 accepted 0 budget 16\n",
        ),
    },
    Row {
        name: "a break comes before the budget",
        words: "check prog public cut 7 s7 --turns 1000 --regions r",
        files: &[
            ("prog", Code(&BRANCH)),
            (
                "cut",
                Text(
                    "flowcheck-cut 1\nsecret 1\nbits 8\npoint 1 0x00010018 rs rest 0x000000ff\nend\n",
                ),
            ),
            (
                "r",
                Text(r#"{"regions":[{"id":1,"enter":"0x10018","leave":"0x10024"}]}"#),
            ),
        ],
        failing: Nothing,
        loads: 5,
        status: 1,
        text: Text(
            "rejected 1 region 1 undeclared x6 at 0x00010018\nchecked 1 accepted 0 budget 7\n",
        ),
    },
    Row {
        name: "a register that is not kept by a skipped region",
        words: "check prog public cut 16 s7 --turns 1000 --regions r",
        files: &[
            ("prog", Code(&BRANCH)),
            ("cut", Text(SKIPPED_ALONE)),
            (
                "r",
                Text(r#"{"regions":[{"id":1,"enter":"0x10018","leave":"0x10024","keep":["t1"]}]}"#),
            ),
        ],
        failing: Nothing,
        loads: 5,
        status: 1,
        text: Text(
            "rejected 1 region 1 keep x6 before 0x00000000 after 0x00000059\n\
                checked 1 accepted 0 budget 16\n",
        ),
    },
    Row {
        name: "a range whose start is secret, of a skipped region",
        words: "check prog public cut 16 s7 --turns 1000 --regions r",
        files: &[
            ("prog", Code(&BRANCH)),
            ("cut", Text(SKIPPED_ALONE)),
            (
                "r",
                Text(
                    r#"{"regions":[{"id":1,"enter":"0x10018","leave":"0x10024","outs":["t1"],
                "ranges":[{"base":"t0","offset":0,"length":1}]}]}"#,
                ),
            ),
        ],
        failing: Nothing,
        loads: 5,
        status: 1,
        text: Text("rejected 1 region 1 range 0 outside\nchecked 1 accepted 0 budget 16\n"),
    },
    Row {
        name: "a byte between two ranges",
        words: "check prog public cut 16 s65 --turns 1000 --regions r",
        files: &[
            ("prog", Code(&NEXT)),
            ("cut", Text(SKIPPED_ALONE)),
            (
                "r",
                Text(
                    r#"{"regions":[{"id":1,"enter":"0x10014","leave":"0x10020","outs":["t0"],
                "ranges":[{"base":"a1","offset":0,"length":1},
                {"base":"a1","offset":2,"length":9}]}]}"#,
                ),
            ),
        ],
        failing: Nothing,
        loads: 5,
        status: 1,
        text: Text(
            "rejected 1 region 1 undeclared 0x00011001 at 0x0001001c\n\
                checked 1 accepted 0 budget 16\n",
        ),
    },
    Row {
        name: "a call inside a skipped region",
        words: "check prog public cut 16 s65 --turns 1000 --regions r",
        files: &[
            ("prog", Code(&ECHO)),
            ("cut", Text(SKIPPED_ALONE)),
            (
                "r",
                Text(
                    r#"{"regions":[{"id":1,"enter":"0x10014","leave":"0x10020","outs":["a0","a7"]}]}"#,
                ),
            ),
        ],
        failing: Nothing,
        loads: 5,
        status: 1,
        text: Text("rejected 1 region 1 call at 0x0001001c\nchecked 1 accepted 0 budget 16\n"),
    },
    Row {
        name: "a range of the replay outside of memory, seen at the entry",
        words: "check prog public cut 16 t1 --turns 8 --regions r",
        files: &[
            ("prog", Code(&FAR)),
            ("cut", Text(NO_BITS)),
            (
                "r",
                Text(
                    r#"{"regions":[{"id":7,"enter":"0x1001c","leave":"0x10020","outs":["t1"],
                "ranges":[{"offset":69632,"length":1},{"base":"t0","offset":256,"length":1}]}]}"#,
                ),
            ),
            ("t1", Raw(&[0x01])),
        ],
        failing: Nothing,
        loads: 5,
        status: 1,
        text: Text("rejected 1 replay region 7 range 1 outside\nchecked 1 accepted 0 budget 16\n"),
    },
    Row {
        name: "a range of the replay outside of memory, where the region is skipped",
        words: "check prog public cut 16 t1 --turns 1000 --regions r",
        files: &[
            ("prog", Code(&FAR)),
            (
                "cut",
                Text("flowcheck-cut 1\nsecret 1\nbits 0\nskip 7\nend\n"),
            ),
            (
                "r",
                Text(
                    r#"{"regions":[{"id":7,"enter":"0x1001c","leave":"0x10020","outs":["t1"],
                "ranges":[{"offset":69632,"length":1},{"base":"t0","offset":256,"length":1}]}]}"#,
                ),
            ),
            ("t1", Raw(&[0x01])),
        ],
        failing: Nothing,
        loads: 5,
        status: 1,
        text: Text("rejected 1 replay region 7 range 1 outside\nchecked 1 accepted 0 budget 16\n"),
    },
    Row {
        name: "at a skip it is seen beside the leave of the real run",
        words: "check prog public cut 16 t1 --turns 9 --regions r",
        files: &[
            ("prog", Code(&FAR)),
            (
                "cut",
                Text("flowcheck-cut 1\nsecret 1\nbits 0\nskip 7\nend\n"),
            ),
            (
                "r",
                Text(
                    r#"{"regions":[{"id":7,"enter":"0x1001c","leave":"0x10020","outs":["t1"],
                "ranges":[{"offset":69632,"length":1},{"base":"t0","offset":256,"length":1}]}]}"#,
                ),
            ),
            ("t1", Raw(&[0x01])),
        ],
        failing: Nothing,
        loads: 5,
        status: 1,
        text: Text("rejected 1 turns 9\nchecked 1 accepted 0 budget 16\n"),
    },
];

/// Regions to whose leave the run does not come.
pub const NOT_LEFT: [Row; 6] = [
    Row {
        name: "the limit is met at the entry of a skipped region",
        words: "check prog public cut 16 t1 --turns 7 --regions r",
        files: &[
            ("prog", Code(&COUNT)),
            ("cut", Text(COUNTED_CUT)),
            (
                "r",
                Text(
                    r#"{"regions":[{"id":1,"enter":"0x10018","leave":"0x10034","outs":["t0","t1","t2"]}]}"#,
                ),
            ),
            ("t1", Raw(&[0x0b])),
        ],
        failing: Nothing,
        loads: 5,
        status: 1,
        text: Text("rejected 1 turns 7\nchecked 1 accepted 0 budget 16\n"),
    },
    Row {
        name: "the limit is met inside of it",
        words: "check prog public cut 16 t1 --turns 20 --regions r",
        files: &[
            ("prog", Code(&COUNT)),
            ("cut", Text(COUNTED_CUT)),
            (
                "r",
                Text(
                    r#"{"regions":[{"id":1,"enter":"0x10018","leave":"0x10034","outs":["t0","t1","t2"]}]}"#,
                ),
            ),
            ("t1", Raw(&[0x0b])),
        ],
        failing: Nothing,
        loads: 5,
        status: 1,
        text: Text("rejected 1 turns 20\nchecked 1 accepted 0 budget 16\n"),
    },
    Row {
        name: "the limit is met at its leave",
        words: "check prog public cut 16 t1 --turns 33 --regions r",
        files: &[
            ("prog", Code(&COUNT)),
            ("cut", Text(COUNTED_CUT)),
            (
                "r",
                Text(
                    r#"{"regions":[{"id":1,"enter":"0x10018","leave":"0x10034","outs":["t0","t1","t2"]}]}"#,
                ),
            ),
            ("t1", Raw(&[0x0b])),
        ],
        failing: Nothing,
        loads: 5,
        status: 1,
        text: Text("rejected 1 turns 33\nchecked 1 accepted 0 budget 16\n"),
    },
    Row {
        name: "a skipped region that is never left",
        words: "check prog public cut 16 t1 --turns 500 --regions r",
        files: &[
            ("prog", Code(&STUCK)),
            ("cut", Text(SKIPPED_ALONE)),
            (
                "r",
                Text(r#"{"regions":[{"id":1,"enter":"0x10018","leave":"0x10020"}]}"#),
            ),
            ("t1", Raw(&[0x01])),
        ],
        failing: Nothing,
        loads: 5,
        status: 1,
        text: Text("rejected 1 turns 500\nchecked 1 accepted 0 budget 16\n"),
    },
    Row {
        name: "the guest is stopped inside a skipped region",
        words: "check prog public cut 16 t1 --turns 1000 --regions r",
        files: &[
            ("prog", Code(&STOPS)),
            ("cut", Text(SKIPPED_ALONE)),
            (
                "r",
                Text(r#"{"regions":[{"id":1,"enter":"0x10018","leave":"0x10020","outs":["t1"]}]}"#),
            ),
            ("t1", Raw(&[0x01])),
        ],
        failing: Nothing,
        loads: 5,
        status: 1,
        text: Text(
            "rejected 1 guest load-outside 0x0001001c address 0x00000000\n\
                checked 1 accepted 0 budget 16\n",
        ),
    },
    Row {
        name: "a skipped region is broken before the guest is stopped",
        words: "check prog public cut 16 t1 --turns 1000 --regions r",
        files: &[
            ("prog", Code(&STOPS)),
            ("cut", Text(SKIPPED_ALONE)),
            (
                "r",
                Text(r#"{"regions":[{"id":1,"enter":"0x10018","leave":"0x10020"}]}"#),
            ),
            ("t1", Raw(&[0x01])),
        ],
        failing: Nothing,
        loads: 5,
        status: 1,
        text: Text(
            "rejected 1 region 1 undeclared x6 at 0x00010018\nchecked 1 accepted 0 budget 16\n",
        ),
    },
];
