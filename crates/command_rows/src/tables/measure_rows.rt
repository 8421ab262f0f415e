//! Measured runs: of a bit that is masked, of a count inside a region and of nothing, runs that are not measured, and the
//! certificate of a run, which is that of its graph.

use super::Content::{Code, Head, Text};
use super::Failing::Nothing;
use super::Row;
use super::break_rows::COUNTED;
use super::cuts::{LOWEST, NO_BITS};
use super::guests::{BRANCH, COUNT, EXIT, LOW};

/// The count of `COUNT` after its region, which is skipped.
const TWO_BITS: &str = "flowcheck-cut 1\nsecret 1\nbits 2\nskip 1\n\
    point 0 0x00010034 rs 1*0x00000003 rest 0x00000003\nend\n";

/// The certificate of the run of `LOW`, of the value 1.
const CERTIFICATE: &str =
    "flowcheck-graph 1\nvalue 1\npoint 0 0x00010010 in capacity 8 flow 1 side s\n\
        point 0 0x00010014 rs capacity 8 flow 1 side s\n\
        point 0 0x00010018 u1 capacity 8 flow 1 side s\n\
        point 0 0x00010018 rs capacity 1 flow 1 side m\n\
        point 0 0x0001001c u2 capacity 1 flow 1 side t\n\
        point 0 0x00010028 ou capacity 1 flow 1 side t\nlink source p0 flow 1\nlink p0 p1 flow 1\n\
        link p1 p2 flow 1\nlink p2 p3 flow 1\nlink p3 p4 flow 1\nlink p4 p5 flow 1\n\
        link p5 sink flow 1\nend\n";

/// Cuts of measured runs, and the certificate of a run, which is verified.
pub const MEASURED: [Row; 5] = [
    Row {
        name: "a bit that is masked",
        words: "measure prog public s3",
        files: &[("prog", Code(&LOW))],
        failing: Nothing,
        loads: 3,
        status: 0,
        text: Text(LOWEST),
    },
    Row {
        name: "a run without a flow",
        words: "measure prog public s3 --turns 3",
        files: &[("prog", Code(&EXIT))],
        failing: Nothing,
        loads: 3,
        status: 0,
        text: Text(NO_BITS),
    },
    Row {
        name: "a count inside a region",
        words: "measure prog --regions=r public s3",
        files: &[("prog", Code(&COUNT)), ("r", Text(COUNTED))],
        failing: Nothing,
        loads: 4,
        status: 0,
        text: Text(TWO_BITS),
    },
    Row {
        name: "the certificate of a run",
        words: "graph prog public s3",
        files: &[("prog", Code(&LOW))],
        failing: Nothing,
        loads: 3,
        status: 0,
        text: Text(CERTIFICATE),
    },
    Row {
        name: "a certificate is verified",
        words: "verify prog",
        files: &[("prog", Text(CERTIFICATE))],
        failing: Nothing,
        loads: 1,
        status: 0,
        text: Text("verified 1\n"),
    },
];

/// Runs that are not measured, and files that are none.
pub const REFUSED: [Row; 6] = [
    Row {
        name: "a turn too few to measure",
        words: "measure prog public s3 --turns 2",
        files: &[("prog", Code(&EXIT))],
        failing: Nothing,
        loads: 3,
        status: 4,
        text: Text("refused 4 turns 2\n"),
    },
    Row {
        name: "a break of a measured run",
        words: "measure prog --regions=r public s3",
        files: &[
            ("prog", Code(&BRANCH)),
            (
                "r",
                Text(r#"{"regions":[{"id":1,"enter":"0x10018","leave":"0x10024"}]}"#),
            ),
        ],
        failing: Nothing,
        loads: 4,
        status: 4,
        text: Text("refused 4 region 1 undeclared x6 at 0x00010018\n"),
    },
    Row {
        name: "a base that is secret",
        words: "measure prog --regions=r public s3",
        files: &[
            ("prog", Code(&BRANCH)),
            (
                "r",
                Text(
                    r#"{"regions":[{"id":1,"enter":"0x10018","leave":"0x10024",
                "ranges":[{"base":"t0","length":1}]}]}"#,
                ),
            ),
        ],
        failing: Nothing,
        loads: 4,
        status: 4,
        text: Text("refused 4 region 1 base x5 secret\n"),
    },
    Row {
        name: "a program that is not whole is not measured",
        words: "measure prog --regions=r public s3",
        files: &[("prog", Head(68)), ("r", Text(""))],
        failing: Nothing,
        loads: 4,
        status: 3,
        text: Text("refused 3 program truncated need 84 have 68\n"),
    },
    Row {
        name: "a region file of a measured run that is no JSON",
        words: "measure prog --regions=r public s3",
        files: &[("prog", Code(&EXIT)), ("r", Text(""))],
        failing: Nothing,
        loads: 4,
        status: 3,
        text: Text("refused 3 regions json\n"),
    },
    Row {
        name: "a measured run without its secret",
        words: "measure prog public",
        files: &[("prog", Code(&EXIT))],
        failing: Nothing,
        loads: 0,
        status: 2,
        text: Text("refused 2 usage\n"),
    },
];
