//! Verdicts on secrets without regions.

use super::Content::{Code, Raw, Text};
use super::Failing::Nothing;
use super::Row;
use super::cuts::{ALL_BITS, NO_BITS};
use super::guests::ECHO;
use super::verdict_guests::{CALL, JUMP, LOAD, OVER, READ_AGAIN, STATUS, THREE, TURNED_WRITE};

/// Runs without regions, and what the replay makes of them.
pub const WITHOUT_REGIONS: [Row; 11] = [
    Row {
        name: "a byte that is read and written",
        words: "check prog public cut 16 s65 --turns 11",
        files: &[("prog", Code(&ECHO)), ("cut", Text(ALL_BITS))],
        failing: Nothing,
        loads: 4,
        status: 0,
        text: Text(
            "accepted 1 bits 8 crossing 41 output 1 status 0\nchecked 1 accepted 1 budget 16\n",
        ),
    },
    Row {
        name: "a turn too few for the exit",
        words: "check prog public cut 16 s65 --turns 10",
        files: &[("prog", Code(&ECHO)), ("cut", Text(ALL_BITS))],
        failing: Nothing,
        loads: 4,
        status: 1,
        text: Text("rejected 1 turns 10\nchecked 1 accepted 0 budget 16\n"),
    },
    Row {
        name: "the first visit has its own mask, and the later ones another",
        words: "check prog public cut 16 t1 --turns 1000",
        files: &[
            ("prog", Code(&THREE)),
            (
                "cut",
                Text(
                    "flowcheck-cut 1\nsecret 3\nbits 16\npoint 0 0x00010010 in 1*0x000000ff rest 0x0000000f\n\
                end\n",
                ),
            ),
            ("t1", Raw(&[0xab, 0xcd, 0xef])),
        ],
        failing: Nothing,
        loads: 4,
        status: 0,
        text: Text(
            "accepted 1 bits 16 crossing abfd output 0 status 0\nchecked 1 accepted 1 budget 16\n",
        ),
    },
    Row {
        name: "the replay is stopped by a load",
        words: "check prog public cut 16 t1 --turns 1000",
        files: &[
            ("prog", Code(&LOAD)),
            ("cut", Text(NO_BITS)),
            ("t1", Raw(&[0x01])),
        ],
        failing: Nothing,
        loads: 4,
        status: 1,
        text: Text(
            "rejected 1 replay guest load-outside 0x0001001c address 0x00000000\n\
                checked 1 accepted 0 budget 16\n",
        ),
    },
    Row {
        name: "the replay is stopped by an illegal word",
        words: "check prog public cut 16 t1 --turns 1000",
        files: &[
            ("prog", Code(&JUMP)),
            ("cut", Text("flowcheck-cut 1\nsecret 3\nbits 0\nend\n")),
            ("t1", Raw(&[0x13, 0x00, 0x00])),
        ],
        failing: Nothing,
        loads: 4,
        status: 1,
        text: Text(
            "rejected 1 replay guest illegal 0x00011000 word 0x00000000\n\
                checked 1 accepted 0 budget 16\n",
        ),
    },
    Row {
        name: "the replay writes a byte more, and wants its bits",
        words: "check prog public cut 16 t1 --turns 1000",
        files: &[
            ("prog", Code(&TURNED_WRITE)),
            (
                "cut",
                Text(
                    "flowcheck-cut 1\nsecret 1\nbits 0\npoint 0 0x00010024 ou rest 0x0000003f\nend\n",
                ),
            ),
            ("t1", Raw(&[0x01])),
        ],
        failing: Nothing,
        loads: 4,
        status: 1,
        text: Text("rejected 1 replay short 6\nchecked 1 accepted 0 budget 16\n"),
    },
    Row {
        name: "the replay takes another way",
        words: "check prog public cut 16 t1 --turns 1000",
        files: &[
            ("prog", Code(&OVER)),
            ("cut", Text(NO_BITS)),
            ("t1", Raw(&[0x01])),
        ],
        failing: Nothing,
        loads: 4,
        status: 1,
        text: Text(
            "rejected 1 parted real 0x0001001c bits 0 output 0 running replay 0x00010020 bits 0 output 0 running\n\
                checked 1 accepted 0 budget 16\n",
        ),
    },
    Row {
        name: "the replay makes another call",
        words: "check prog public cut 16 t1 --turns 1000",
        files: &[
            ("prog", Code(&CALL)),
            ("cut", Text(NO_BITS)),
            ("t1", Raw(&[0x5d])),
        ],
        failing: Nothing,
        loads: 4,
        status: 1,
        text: Text(
            "rejected 1 parted real 0x00010018 bits 0 output 0 exited replay 0x0001001c bits 0 output 0 running\n\
                checked 1 accepted 0 budget 16\n",
        ),
    },
    Row {
        name: "the replay uses fewer bits",
        words: "check prog public cut 16 t1 --turns 1000",
        files: &[
            ("prog", Code(&READ_AGAIN)),
            (
                "cut",
                Text(
                    "flowcheck-cut 1\nsecret 2\nbits 8\npoint 0 0x0001001c in rest 0x000000ff\nend\n",
                ),
            ),
            ("t1", Raw(&[0x01, 0x07])),
        ],
        failing: Nothing,
        loads: 4,
        status: 1,
        text: Text(
            "rejected 1 parted real 0x00010020 bits 8 output 0 running replay 0x00010020 bits 0 output 0 running\n\
                checked 1 accepted 0 budget 16\n",
        ),
    },
    Row {
        name: "a line of the cut names a region that there is not",
        words: "check prog public cut 16 s65 --turns 1000",
        files: &[
            ("prog", Code(&ECHO)),
            (
                "cut",
                Text(
                    "flowcheck-cut 1\nsecret 1\nbits 8\nskip 1\npoint 1 0x00010010 in rest 0x000000ff\nend\n",
                ),
            ),
        ],
        failing: Nothing,
        loads: 4,
        status: 1,
        text: Text("rejected 1 output index 0 real 65 replay 0\nchecked 1 accepted 0 budget 16\n"),
    },
    Row {
        name: "the exit statuses differ",
        words: "check prog public cut 16 t1 --turns 1000",
        files: &[
            ("prog", Code(&STATUS)),
            ("cut", Text(NO_BITS)),
            ("t1", Raw(&[0x2a])),
        ],
        failing: Nothing,
        loads: 4,
        status: 1,
        text: Text("rejected 1 output index 1 real 42 replay 0\nchecked 1 accepted 0 budget 16\n"),
    },
];
