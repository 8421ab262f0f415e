//! Reports, as text and as JSON, the tables of mask rules and the versions of cuts.

use super::Content::{Code, Text};
use super::Failing::Nothing;
use super::Row;
use super::break_rows::COUNTED;
use super::cuts::{LOWEST, NO_BITS};
use super::guests::{BY_TURNS, COUNT, LOW, SHIFTED, SMALL};

const COMPARED: &str =
    "flowcheck-cut 1\nsecret 1\nbits 1\npoint 0 0x0001001c rs 1*0x00000001 rest 0x00000001\nend\n";

/// The masks of the visits as they come.
const LISTED: &str = "flowcheck-cut 1\nsecret 4\nbits 6\npoint 0 0x00010020 rs \
    1*0x00000001 1*0x00000003 1*0x00000001 1*0x00000003 rest 0x00000003\nend\n";

/// The same masks as a pattern.
const FOLDED: &str = "flowcheck-cut 2\nsecret 4\nbits 6\n\
    point 0 0x00010020 rs rest 1*0x00000001 1*0x00000003\nend\n";

const REPORT: &str = "bits 1 secret 1 turns 14 points 6 links 7 output 1 status 0\n\
    cut 0 0x00010018 rs bits 1\n";

const JSON: &str = "{\"bits\":1,\"cut\":[{\"address\":\"0x00010018\",\"bits\":1,\"region\":0,\
    \"slot\":\"rs\"}],\"links\":7,\"output\":1,\"points\":6,\"secret\":1,\"skip\":[],\"status\":0,\"turns\":14}\n";

const SKIPPED: &str = "bits 2 secret 1 turns 30 points 17 links 25 output 1 status 0\n\
    skip 1\ncut 0 0x00010034 rs bits 2\n";

const SKIPPED_JSON: &str =
    "{\"bits\":2,\"cut\":[{\"address\":\"0x00010034\",\"bits\":2,\"region\":0,\
    \"slot\":\"rs\"}],\"links\":25,\"output\":1,\"points\":17,\"secret\":1,\"skip\":[1],\"status\":0,\"turns\":30}\n";

/// Reports of the guest that writes the lowest bit, and of a run that skips a region.
pub const REPORTS: [Row; 9] = [
    Row {
        name: "a report",
        words: "report prog public s3",
        files: &[("prog", Code(&LOW))],
        failing: Nothing,
        loads: 3,
        status: 0,
        text: Text(REPORT),
    },
    Row {
        name: "a report as JSON",
        words: "report --json prog public s3",
        files: &[("prog", Code(&LOW))],
        failing: Nothing,
        loads: 3,
        status: 0,
        text: Text(JSON),
    },
    Row {
        name: "a value of the flag",
        words: "report prog public s3 --json=v",
        files: &[("prog", Code(&LOW))],
        failing: Nothing,
        loads: 0,
        status: 2,
        text: Text("refused 2 usage\n"),
    },
    Row {
        name: "an empty value of the flag",
        words: "report prog public s3 --json=",
        files: &[("prog", Code(&LOW))],
        failing: Nothing,
        loads: 0,
        status: 2,
        text: Text("refused 2 usage\n"),
    },
    Row {
        name: "the flag twice",
        words: "report prog --json public s3 --json",
        files: &[("prog", Code(&LOW))],
        failing: Nothing,
        loads: 0,
        status: 2,
        text: Text("refused 2 usage\n"),
    },
    Row {
        name: "a version of a report",
        words: "report prog public s3 --cut 1",
        files: &[("prog", Code(&LOW))],
        failing: Nothing,
        loads: 0,
        status: 2,
        text: Text("refused 2 usage\n"),
    },
    Row {
        name: "a cut as JSON",
        words: "measure prog public s3 --json",
        files: &[("prog", Code(&LOW))],
        failing: Nothing,
        loads: 0,
        status: 2,
        text: Text("refused 2 usage\n"),
    },
    Row {
        name: "a report of a skipped region",
        words: "report prog --regions=r public s3",
        files: &[("prog", Code(&COUNT)), ("r", Text(COUNTED))],
        failing: Nothing,
        loads: 4,
        status: 0,
        text: Text(SKIPPED),
    },
    Row {
        name: "a report of a skipped region as JSON",
        words: "report prog --regions=r public s3 --json",
        files: &[("prog", Code(&COUNT)), ("r", Text(COUNTED))],
        failing: Nothing,
        loads: 4,
        status: 0,
        text: Text(SKIPPED_JSON),
    },
];

/// Two guests of which tables 2 and 3 find that nothing of the secret is given away.
pub const TABLES: [Row; 7] = [
    Row {
        name: "a comparison by table 1",
        words: "measure prog public s7 --rules 1",
        files: &[("prog", Code(&SMALL))],
        failing: Nothing,
        loads: 3,
        status: 0,
        text: Text(COMPARED),
    },
    Row {
        name: "a comparison by table 2",
        words: "measure prog public s7 --rules=2",
        files: &[("prog", Code(&SMALL))],
        failing: Nothing,
        loads: 3,
        status: 0,
        text: Text(NO_BITS),
    },
    Row {
        name: "a comparison by table 3",
        words: "measure prog public s7 --rules=3",
        files: &[("prog", Code(&SMALL))],
        failing: Nothing,
        loads: 3,
        status: 0,
        text: Text(NO_BITS),
    },
    Row {
        name: "a shift by table 1",
        words: "measure prog public s7",
        files: &[("prog", Code(&SHIFTED))],
        failing: Nothing,
        loads: 3,
        status: 0,
        text: Text(LOWEST),
    },
    Row {
        name: "a shift by table 2",
        words: "measure prog public s7 --rules 2",
        files: &[("prog", Code(&SHIFTED))],
        failing: Nothing,
        loads: 3,
        status: 0,
        text: Text(NO_BITS),
    },
    Row {
        name: "a shift by table 3",
        words: "measure prog public s7 --rules 3",
        files: &[("prog", Code(&SHIFTED))],
        failing: Nothing,
        loads: 3,
        status: 0,
        text: Text(NO_BITS),
    },
    Row {
        name: "there is no table 4",
        words: "measure prog public s7 --rules 4",
        files: &[("prog", Code(&SHIFTED))],
        failing: Nothing,
        loads: 0,
        status: 2,
        text: Text("refused 2 usage\n"),
    },
];

/// A cut whose masks repeat, in both versions.
pub const FOLDS: [Row; 4] = [
    Row {
        name: "masks that repeat, listed",
        words: "measure prog public s7777",
        files: &[("prog", Code(&BY_TURNS))],
        failing: Nothing,
        loads: 3,
        status: 0,
        text: Text(LISTED),
    },
    Row {
        name: "masks that repeat, folded",
        words: "measure prog public s7777 --cut 2",
        files: &[("prog", Code(&BY_TURNS))],
        failing: Nothing,
        loads: 3,
        status: 0,
        text: Text(FOLDED),
    },
    Row {
        name: "there is no version 0",
        words: "measure prog public s7777 --cut 0",
        files: &[("prog", Code(&BY_TURNS))],
        failing: Nothing,
        loads: 0,
        status: 2,
        text: Text("refused 2 usage\n"),
    },
    Row {
        name: "a version of a certificate",
        words: "graph prog public s7777 --cut 1",
        files: &[("prog", Code(&BY_TURNS))],
        failing: Nothing,
        loads: 0,
        status: 2,
        text: Text("refused 2 usage\n"),
    },
];
