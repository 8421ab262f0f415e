//! Declarations that are learnt of a run.

use super::Content::{Code, Text};
use super::Failing::Nothing;
use super::Row;
use super::guests::{BRANCH, COUNT, ECHO, OUTSIDE};

const BRANCH_FILE: &str =
    r#"{"regions":[{"id":1,"enter":"0x10018","leave":"0x10024","ranges":[{"offset":0,"length":1}]}]}"#;

const COUNT_FILE: &str =
    r#"{"regions":[{"id":1,"enter":"0x10018","leave":"0x10034","outs":["t0","t1","t2"]}]}"#;

/// Registers of which some keep their value, whatever the file declares.
pub const LEARNT: [Row; 3] = [
    Row {
        name: "the one register that the branch writes",
        words: "learn prog public s7 file",
        files: &[("prog", Code(&BRANCH)), ("file", Text(BRANCH_FILE))],
        failing: Nothing,
        loads: 4,
        status: 0,
        text: Text(
            "{\"regions\":[{\"enter\":\"0x00010018\",\"id\":1,\"keep\":[],\"leave\":\"0x00010024\",\
                \"outs\":[\"x6\"],\"ranges\":[]}]}\n",
        ),
    },
    Row {
        name: "a loop writes three registers",
        words: "learn prog public s3 file",
        files: &[("prog", Code(&COUNT)), ("file", Text(COUNT_FILE))],
        failing: Nothing,
        loads: 4,
        status: 0,
        text: Text(
            "{\"regions\":[{\"enter\":\"0x00010018\",\"id\":1,\"keep\":[],\"leave\":\"0x00010034\",\
                \"outs\":[\"x5\",\"x6\",\"x7\"],\"ranges\":[]}]}\n",
        ),
    },
    Row {
        name: "a register that is written with its own value is kept",
        words: "learn prog public s0 file",
        files: &[
            ("prog", Code(&COUNT)),
            ("file", Text(COUNT_FILE)),
            ("s0", super::Content::Raw(&[0])),
        ],
        failing: Nothing,
        loads: 4,
        status: 0,
        text: Text(
            "{\"regions\":[{\"enter\":\"0x00010018\",\"id\":1,\"keep\":[\"x6\"],\
                \"leave\":\"0x00010034\",\"outs\":[],\"ranges\":[]}]}\n",
        ),
    },
];

/// Runs of which none is learnt, and a file that is none.
pub const REFUSED: [Row; 5] = [
    Row {
        name: "a call stands inside the region",
        words: "learn prog public s7 file",
        files: &[
            ("prog", Code(&ECHO)),
            (
                "file",
                Text(r#"{"regions":[{"id":1,"enter":"0x10014","leave":"0x10020"}]}"#),
            ),
        ],
        failing: Nothing,
        loads: 4,
        status: 4,
        text: Text("refused 4 region 1 call at 0x0001001c\n"),
    },
    Row {
        name: "a run that stops has no declaration",
        words: "learn prog public s7 file",
        files: &[
            ("prog", Code(&OUTSIDE)),
            ("file", Text(r#"{"regions":[]}"#)),
        ],
        failing: Nothing,
        loads: 4,
        status: 4,
        text: Text("refused 4 load-outside 0x00010000 address 0x00000000\n"),
    },
    Row {
        name: "a run that goes on has no declaration",
        words: "learn prog public s7 file --turns=2",
        files: &[("prog", Code(&ECHO)), ("file", Text(r#"{"regions":[]}"#))],
        failing: Nothing,
        loads: 4,
        status: 4,
        text: Text("refused 4 turns 2\n"),
    },
    Row {
        name: "the file of a declaration is a region file",
        words: "learn prog public s7 file",
        files: &[("prog", Code(&ECHO)), ("file", Text("{"))],
        failing: Nothing,
        loads: 4,
        status: 3,
        text: Text("refused 3 regions json\n"),
    },
    Row {
        name: "a declaration has its file as a word",
        words: "learn prog public s7 --regions file",
        files: &[("prog", Code(&ECHO)), ("file", Text(r#"{"regions":[]}"#))],
        failing: Nothing,
        loads: 0,
        status: 2,
        text: Text("refused 2 usage\n"),
    },
];
