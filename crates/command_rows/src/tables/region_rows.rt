//! Region files of checks: what they change, the faults that are told, and when they are loaded.

use super::Content::{Code, Head, Text, Zeros};
use super::Failing::Nothing;
use super::cuts::{NO_BITS, TRAILING};
use super::guests::EXIT;
use super::{Content, Row};

/// No regions.
const NONE: &str = r#"{"regions":[]}"#;

/// A region that no run of the rows enters.
const AWAY: &str = r#"{"regions":[{"id":1,"enter":"0x20000","leave":"0x20004","outs":["t1"]}]}"#;

const SAME_ADDRESS: &str = r#"{"regions":[{"id":1,"enter":"0x10010","leave":"0x10010"}]}"#;

const ENTER_TWICE: &str = r#"{"regions":[{"id":1,"enter":"0x10010","leave":"0x10014"},
    {"id":2,"enter":"0x10010","leave":"0x10018"}]}"#;

const REGISTER_TWICE: &str =
    r#"{"regions":[{"id":1,"enter":"0x10010","leave":"0x10014","outs":["t1"],"keep":["x6"]}]}"#;

const ID_TWICE: &str = r#"{"regions":[{"id":1,"enter":"0x10010","leave":"0x10014"},
    {"id":1,"enter":"0x10020","leave":"0x10024"}]}"#;

const ACCEPTED: &str =
    "accepted 1 bits 0 crossing - output 0 status 0\nchecked 1 accepted 1 budget 0\n";

/// The guest that exits, no bits, and a region file; neither `nocut`, `none` nor `s9` is held.
pub const WITH_NONE: [(&str, Content); 3] = [
    ("prog", Code(&EXIT)),
    ("cut", Text(NO_BITS)),
    ("r", Text(NONE)),
];

const WITH_AWAY: [(&str, Content); 3] = [
    ("prog", Code(&EXIT)),
    ("cut", Text(NO_BITS)),
    ("r", Text(AWAY)),
];

/// The region file, which is no JSON, is held as `-r` too.
pub const WITH_BRACE: [(&str, Content); 4] = [
    ("prog", Code(&EXIT)),
    ("cut", Text(NO_BITS)),
    ("r", Text("{")),
    ("-r", Text("{")),
];

/// What region files change.
pub const READ: [Row; 4] = [
    Row {
        name: "a region file without a region",
        words: "check prog public cut 0 s3 --regions r",
        files: &WITH_NONE,
        failing: Nothing,
        loads: 5,
        status: 0,
        text: Text(ACCEPTED),
    },
    Row {
        name: "a region that is not entered",
        words: "check prog public cut 0 s3 --regions r",
        files: &WITH_AWAY,
        failing: Nothing,
        loads: 5,
        status: 0,
        text: Text(ACCEPTED),
    },
    Row {
        name: "options among the words",
        words: "check --turns 2 prog public --regions=r cut 0 s3",
        files: &WITH_AWAY,
        failing: Nothing,
        loads: 5,
        status: 1,
        text: Text("rejected 1 turns 2\nchecked 1 accepted 0 budget 0\n"),
    },
    Row {
        name: "options behind the words",
        words: "check prog public cut 0 s3 --turns=2 --regions=r",
        files: &WITH_AWAY,
        failing: Nothing,
        loads: 5,
        status: 1,
        text: Text("rejected 1 turns 2\nchecked 1 accepted 0 budget 0\n"),
    },
];

/// The faults of region files, their place among other faults, and when the files are loaded.
pub const REFUSED: [Row; 15] = [
    Row {
        name: "no JSON",
        words: "check prog public cut 0 s3 --regions r",
        files: &WITH_BRACE,
        failing: Nothing,
        loads: 5,
        status: 3,
        text: Text("refused 3 regions json\n"),
    },
    Row {
        name: "no object",
        words: "check prog public cut 0 s3 --regions r",
        files: &[
            ("prog", Code(&EXIT)),
            ("cut", Text(NO_BITS)),
            ("r", Text("[]")),
        ],
        failing: Nothing,
        loads: 5,
        status: 3,
        text: Text("refused 3 regions shape 0\n"),
    },
    Row {
        name: "a region that is no object",
        words: "check prog public cut 0 s3 --regions r",
        files: &[
            ("prog", Code(&EXIT)),
            ("cut", Text(NO_BITS)),
            ("r", Text(r#"{"regions":[5]}"#)),
        ],
        failing: Nothing,
        loads: 5,
        status: 3,
        text: Text("refused 3 regions shape 1\n"),
    },
    Row {
        name: "an id that stands twice",
        words: "check prog public cut 0 s3 --regions r",
        files: &[
            ("prog", Code(&EXIT)),
            ("cut", Text(NO_BITS)),
            ("r", Text(ID_TWICE)),
        ],
        failing: Nothing,
        loads: 5,
        status: 3,
        text: Text("refused 3 regions shape 2\n"),
    },
    Row {
        name: "a region that leaves where it is entered",
        words: "check prog public cut 0 s3 --regions r",
        files: &[
            ("prog", Code(&EXIT)),
            ("cut", Text(NO_BITS)),
            ("r", Text(SAME_ADDRESS)),
        ],
        failing: Nothing,
        loads: 5,
        status: 3,
        text: Text("refused 3 regions same-address 1\n"),
    },
    Row {
        name: "two regions that are entered at one address",
        words: "check prog public cut 0 s3 --regions r",
        files: &[
            ("prog", Code(&EXIT)),
            ("cut", Text(NO_BITS)),
            ("r", Text(ENTER_TWICE)),
        ],
        failing: Nothing,
        loads: 5,
        status: 3,
        text: Text("refused 3 regions enter-twice 2\n"),
    },
    Row {
        name: "a register that stands twice",
        words: "check prog public cut 0 s3 --regions r",
        files: &[
            ("prog", Code(&EXIT)),
            ("cut", Text(NO_BITS)),
            ("r", Text(REGISTER_TWICE)),
        ],
        failing: Nothing,
        loads: 5,
        status: 3,
        text: Text("refused 3 regions register-twice 1 x6\n"),
    },
    Row {
        name: "257 regions",
        words: "check prog public cut 0 s3 --regions r",
        files: &[
            ("prog", Code(&EXIT)),
            ("cut", Text(NO_BITS)),
            (
                "r",
                Text(
                    "{\"regions\":[0,0,0,0,0,0,0,0,0,0,0,0,0,0,0,0,0,0,0,0,0,0,0,0,0,0,0,0,0,0,0,0,0,0,0,0,\
                0,0,0,0,0,0,0,0,0,0,0,0,0,0,0,0,0,0,0,0,0,0,0,0,0,0,0,0,0,0,0,0,0,0,0,0,0,0,0,0,0,0,0,\
                0,0,0,0,0,0,0,0,0,0,0,0,0,0,0,0,0,0,0,0,0,0,0,0,0,0,0,0,0,0,0,0,0,0,0,0,0,0,0,0,0,0,0,\
                0,0,0,0,0,0,0,0,0,0,0,0,0,0,0,0,0,0,0,0,0,0,0,0,0,0,0,0,0,0,0,0,0,0,0,0,0,0,0,0,0,0,0,\
                0,0,0,0,0,0,0,0,0,0,0,0,0,0,0,0,0,0,0,0,0,0,0,0,0,0,0,0,0,0,0,0,0,0,0,0,0,0,0,0,0,0,0,\
                0,0,0,0,0,0,0,0,0,0,0,0,0,0,0,0,0,0,0,0,0,0,0,0,0,0,0,0,0,0,0,0,0,0,0,0,0,0,0,0,0,0,0,\
                0,0,0,0,0,0]}",
                ),
            ),
        ],
        failing: Nothing,
        loads: 5,
        status: 3,
        text: Text("refused 3 regions too-many 257\n"),
    },
    Row {
        name: "a fault of the program stands before one of the regions",
        words: "check prog public cut 0 s3 --regions r",
        files: &[("prog", Head(51)), ("cut", Text(NO_BITS)), ("r", Text("{"))],
        failing: Nothing,
        loads: 5,
        status: 3,
        text: Text("refused 3 program truncated need 52 have 51\n"),
    },
    Row {
        name: "a fault of the regions stands before one of the cut",
        words: "check prog public cut 0 s3 --regions r",
        files: &[
            ("prog", Code(&EXIT)),
            ("cut", Text(TRAILING)),
            ("r", Text("{")),
        ],
        failing: Nothing,
        loads: 5,
        status: 3,
        text: Text("refused 3 regions json\n"),
    },
    Row {
        name: "a fault of the cut stands behind the regions",
        words: "check prog public cut 0 s3 --regions r",
        files: &[
            ("prog", Code(&EXIT)),
            ("cut", Text(TRAILING)),
            ("r", Text(NONE)),
        ],
        failing: Nothing,
        loads: 5,
        status: 3,
        text: Text("refused 3 cut trailing 36\n"),
    },
    Row {
        name: "the cut is loaded before the region file",
        words: "check prog public nocut 0 s3 --regions none",
        files: &WITH_NONE,
        failing: Nothing,
        loads: 3,
        status: 5,
        text: Text("refused 5 load nocut\n"),
    },
    Row {
        name: "the region file is loaded before the secrets",
        words: "check prog public cut 0 s9 --regions none",
        files: &WITH_NONE,
        failing: Nothing,
        loads: 4,
        status: 5,
        text: Text("refused 5 load none\n"),
    },
    Row {
        name: "a region file above its limit",
        words: "check prog public cut 0 s9 --regions large",
        files: &[
            ("prog", Code(&EXIT)),
            ("cut", Text(NO_BITS)),
            ("large", Zeros(65_537)),
        ],
        failing: Nothing,
        loads: 4,
        status: 6,
        text: Text("refused 6 too-large large 65537\n"),
    },
    Row {
        name: "the secrets are loaded behind the region file",
        words: "check prog public cut 0 s9 --regions r",
        files: &WITH_NONE,
        failing: Nothing,
        loads: 5,
        status: 5,
        text: Text("refused 5 load s9\n"),
    },
];
