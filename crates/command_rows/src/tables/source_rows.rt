//! A source becomes a program file, and a program file its listing.

use super::Content::{Code, Head, Text};
use super::Failing::Nothing;
use super::Row;
use super::guests::{EXIT, SHIFTED};

const SOURCE: &str = "addi a0, x0, 0\naddi a7, x0, 93\necall\n";

const LISTING: &str = "0x00010000 00000513 addi x10, x0, 0\n0x00010004 05d00893 addi x17, x0, 93\n\
    0x00010008 00000073 ecall\n";

pub const ROWS: [Row; 5] = [
    Row {
        name: "a source is assembled",
        words: "asm prog",
        files: &[("prog", Text(SOURCE))],
        failing: Nothing,
        loads: 1,
        status: 0,
        text: Code(&EXIT),
    },
    Row {
        name: "a program is listed",
        words: "list prog",
        files: &[("prog", Code(&EXIT))],
        failing: Nothing,
        loads: 1,
        status: 0,
        text: Text(LISTING),
    },
    Row {
        name: "a source that is out of range",
        words: "asm prog",
        files: &[("prog", Text("addi a0, x0, 4096"))],
        failing: Nothing,
        loads: 1,
        status: 3,
        text: Text("refused 3 source range 1\n"),
    },
    Row {
        name: "a program that is not whole is not listed",
        words: "list prog",
        files: &[("prog", Head(68))],
        failing: Nothing,
        loads: 1,
        status: 3,
        text: Text("refused 3 program truncated need 84 have 68\n"),
    },
    Row {
        name: "a table of rules is no option of a listing",
        words: "list prog --rules 1",
        files: &[("prog", Code(&SHIFTED))],
        failing: Nothing,
        loads: 0,
        status: 2,
        text: Text("refused 2 usage\n"),
    },
];
