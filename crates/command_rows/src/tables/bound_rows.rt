//! The outputs of all secrets, bounded by a cut: what is bounded, unclear and refused.

use super::Content::{Code, Text};
use super::Failing::{Load, Nothing};
use super::cuts::{ALL_BITS, LOWEST, NO_BITS, OUT};
use super::guests::{ECHO, LOW, OUTSIDE, TYPED};
use super::{Content, Row};

const LOW_LOWEST: [(&str, Content); 2] = [("prog", Code(&LOW)), ("cut", Text(LOWEST))];

const ECHO_READ: [(&str, Content); 2] = [("prog", Code(&ECHO)), ("cut", Text(ALL_BITS))];

/// Each bit of the byte that is written.
const WRITTEN: &str =
    "flowcheck-cut 1\nsecret 1\nbits 8\npoint 0 0x0001001c ou rest 0x000000ff\nend\n";

/// Each path is walked, and each pattern is listed once.
pub const BOUNDED: [Row; 4] = [
    Row {
        name: "a bit that crosses has two outputs",
        words: "bound prog public cut 1 --list",
        files: &LOW_LOWEST,
        failing: Nothing,
        loads: 3,
        status: 0,
        text: Text(
            "output 1 free 0 bytes 00 status 0\noutput 2 free 0 bytes 01 status 0\n\
                bounded secret 1 regions 0 paths 2 stopped 0 outputs 2 bits 1\n",
        ),
    },
    Row {
        name: "bits that are shown are free, and no path is walked for them",
        words: "bound --list prog public cut 8 --rules 2 --paths 1",
        files: &[("prog", Code(&ECHO)), ("cut", Text(WRITTEN))],
        failing: Nothing,
        loads: 3,
        status: 0,
        text: Text(
            "output 1 free 8 bytes 00 status 0 mask ff 00\n\
                bounded secret 1 regions 0 paths 1 stopped 0 outputs 256 bits 8\n",
        ),
    },
    Row {
        name: "each bit that is read is chosen",
        words: "bound prog public cut 8",
        files: &ECHO_READ,
        failing: Nothing,
        loads: 3,
        status: 0,
        text: Text("bounded secret 1 regions 0 paths 256 stopped 0 outputs 256 bits 8\n"),
    },
    Row {
        name: "a path that stops has no output",
        words: "bound prog public cut 0 --list",
        files: &[("prog", Code(&OUTSIDE)), ("cut", Text(NO_BITS))],
        failing: Nothing,
        loads: 3,
        status: 0,
        text: Text(
            "stopped path - bits 0 guest load-outside 0x00010000 address 0x00000000\n\
                bounded secret 1 regions 0 paths 1 stopped 1 outputs 0 bits 0\n",
        ),
    },
];

/// A public byte that is echoed.
const TYPED_WRITTEN: [(&str, Content); 3] = [
    ("prog", Code(&TYPED)),
    ("public", Text("a")),
    ("cut", Text(WRITTEN)),
];

const TYPED_NO_BITS: [(&str, Content); 3] = [
    ("prog", Code(&TYPED)),
    ("public", Text("a")),
    ("cut", Text(NO_BITS)),
];

/// Of any public input each byte may be all that a byte may be; without the flag it is known.
pub const ANY_PUBLIC: [Row; 4] = [
    Row {
        name: "of any public input the length is told, here of one that has no byte",
        words: "bound prog public cut 1 --any-public",
        files: &LOW_LOWEST,
        failing: Nothing,
        loads: 3,
        status: 0,
        text: Text("bounded secret 1 public 0 regions 0 paths 2 stopped 0 outputs 2 bits 1\n"),
    },
    Row {
        name: "a byte that is typed and shown is free",
        words: "bound --any-public prog public cut 8 --list",
        files: &TYPED_WRITTEN,
        failing: Nothing,
        loads: 3,
        status: 0,
        text: Text(
            "output 1 free 8 bytes 00 status 0 mask ff 00\n\
                bounded secret 1 public 1 regions 0 paths 1 stopped 0 outputs 256 bits 8\n",
        ),
    },
    Row {
        name: "a byte that is typed and shown, where no cut counts it",
        words: "bound prog public cut 8 --any-public",
        files: &TYPED_NO_BITS,
        failing: Nothing,
        loads: 3,
        status: 1,
        text: Text("unclear path - bits 0 left 0 0x0001001c ou mask 0x000000ff\n"),
    },
    Row {
        name: "a byte that is known and shown gives no bit",
        words: "bound prog public cut 0 --list",
        files: &TYPED_NO_BITS,
        failing: Nothing,
        loads: 3,
        status: 0,
        text: Text(
            "output 1 free 0 bytes 61 status 0\n\
                bounded secret 1 regions 0 paths 1 stopped 0 outputs 1 bits 0\n",
        ),
    },
];

/// The first path that is unclear, and the limits.
pub const UNCLEAR: [Row; 4] = [
    Row {
        name: "bits that are left are shown",
        words: "bound prog public cut 8 --list",
        files: &[("prog", Code(&ECHO)), ("cut", Text(OUT))],
        failing: Nothing,
        loads: 3,
        status: 1,
        text: Text("unclear path - bits 0 left 0 0x0001001c ou mask 0x000000f0\n"),
    },
    Row {
        name: "more bits cross than the budget",
        words: "bound prog public cut 7",
        files: &ECHO_READ,
        failing: Nothing,
        loads: 3,
        status: 1,
        text: Text("unclear path 00 bits 8 budget 7 needed 8\n"),
    },
    Row {
        name: "one path more is left than may be walked",
        words: "bound prog public cut 8 --paths 255",
        files: &ECHO_READ,
        failing: Nothing,
        loads: 3,
        status: 1,
        text: Text("unclear path 7f bits 8 paths 255\n"),
    },
    Row {
        name: "as many paths are left as may be walked",
        words: "bound prog public cut 8 --paths 256",
        files: &ECHO_READ,
        failing: Nothing,
        loads: 3,
        status: 0,
        text: Text("bounded secret 1 regions 0 paths 256 stopped 0 outputs 256 bits 8\n"),
    },
];

/// What is refused before any path is walked.
pub const REFUSED: [Row; 4] = [
    Row {
        name: "a bound has no secret",
        words: "bound prog public cut 8 s3",
        files: &ECHO_READ,
        failing: Nothing,
        loads: 0,
        status: 2,
        text: Text("refused 2 usage\n"),
    },
    Row {
        name: "at least one path is walked",
        words: "bound prog public cut 8 --paths 0",
        files: &ECHO_READ,
        failing: Nothing,
        loads: 0,
        status: 2,
        text: Text("refused 2 usage\n"),
    },
    Row {
        name: "a cut of a bound is malformed",
        words: "bound prog public prog 8",
        files: &ECHO_READ,
        failing: Nothing,
        loads: 3,
        status: 3,
        text: Text("refused 3 cut truncated\n"),
    },
    Row {
        name: "a cut of a bound is not loaded",
        words: "bound prog public cut 8",
        files: &ECHO_READ,
        failing: Load(3),
        loads: 3,
        status: 5,
        text: Text("refused 5 load cut\n"),
    },
];
