//! What is wrong with a file that is refused as malformed, and what to change.

use crate::meanings::meaning_of;

/// A kind of file.
pub struct FileKind {
    /// The word of a refusal that names it.
    pub word: &'static str,
    /// The names that forms have for such a file; the first that a form has.
    pub names: [&'static str; 2],
    /// What it is called.
    pub noun: &'static str,
}

/// Each kind of file.
static FILE_KINDS: [FileKind; 5] = [
    FileKind {
        word: "program",
        names: ["PROG", "PROG"],
        noun: "program",
    },
    FileKind {
        word: "regions",
        names: ["regions", "FILE"],
        noun: "region file",
    },
    FileKind {
        word: "cut",
        names: ["CUT", "CUT"],
        noun: "cut",
    },
    FileKind {
        word: "source",
        names: ["SOURCE", "SOURCE"],
        noun: "source",
    },
    FileKind {
        word: "certificate",
        names: ["CERT", "CERT"],
        noun: "certificate",
    },
];

/// The kinds of files.
pub fn file_kinds<'a>() -> &'a [FileKind] {
    &FILE_KINDS
}

/// What a fault means of a file of the kind that a word of a refusal names, and what to change.
pub fn meaning_of_file<'a>(word: &str, fault: &str) -> &'a str {
    let table = match word {
        "program" => PROGRAMS,
        "regions" => REGIONS,
        "cut" => CUTS,
        "source" => SOURCES,
        "certificate" => CERTIFICATES,
        _ => "",
    };
    meaning_of(table, fault)
}

/// What the faults of a program mean.
const PROGRAMS: &str = "\
    truncated||The file ends before its headers do, so it is no whole program. The program is the first file, then \
        comes the public input: have two changed places? Else it was cut off: build or copy it again.\n\
    not-elf32 offset 0 |byte 0x21|It begins with `!`, as an archive of object files does. Link it into a program \
        with _start: make -f PATH/examples/guests/Makefile NAME.elf gives all options.\n\
    not-elf32 offset 0 |byte 0x23|It begins with `#`, as sources and scripts do. A guest is a program file. One in C \
        is built by make -f PATH/examples/guests/Makefile NAME.elf, one in assembler by flowcheck asm SOURCE >NAME.elf.\n\
    not-elf32 offset 0 |byte 0x7b|It begins with `{`, as a region file does. That stands after --regions, and the \
        program is the first file.\n\
    not-elf32 offset 4 byte 0x02||It is a 64-bit ELF file, of RV64 or of this computer, and guests are 32-bit: give \
        the compiler -march=rv32im -mabi=ilp32. make -f PATH/examples/guests/Makefile NAME.elf gives all options.\n\
    not-elf32 offset 5 ||It is a big-endian ELF file, and guests are little-endian: give the compiler -march=rv32im \
        -mabi=ilp32. make -f PATH/examples/guests/Makefile NAME.elf gives all options.\n\
    not-elf32||It is no ELF file. The program is the first file, then comes the public input: have two changed \
        places? A source in C is built by make -f PATH/examples/guests/Makefile NAME.elf, one in assembler by flowcheck \
        asm SOURCE >NAME.elf.\n\
    wrong-kind type 1 machine 243||It is an object file that was not linked. Leave out -c; make -f \
        PATH/examples/guests/Makefile NAME.elf gives all options.\n\
    wrong-kind type 3 machine 243||It is a shared library, or a program that may stand anywhere. Link it with \
        -static -no-pie and without -shared.\n\
    wrong-kind||It is no program for RISC-V. Build it by make -f PATH/examples/guests/Makefile NAME.elf, which gives \
        all options.\n\
    compressed||It has compressed instructions, its own or those of a library. Build all of it with -march=rv32im \
        (without the letter c) and -mabi=ilp32.\n\
    headers 0 ||It has no program headers, so it was not linked, or they were stripped. make -f \
        PATH/examples/guests/Makefile NAME.elf links it with all options.\n\
    headers| size 32 loads 0|It has more than 64 program headers, or none that loads a byte. Link it with the \
        linker's own script, without -T.\n\
    headers||Its program headers do not have 32 bytes each, so it was damaged, or made by no usual linker. Link it \
        again.\n\
    dynamic||It asks for a dynamic linker, and a guest has none. Link it with -static, and without -pie and -shared.\n\
    segment||This segment, counted from 0, is beyond the file or beyond the 16 MiB of memory that begin at the \
        program's lowest address. Keep the sections together, with one -Wl,-Ttext=0x11000 and no far -Tdata or -Tbss, \
        and arrays small; riscv64-unknown-elf-readelf -l lists the segments.\n\
    overlap||These two segments, counted from 0, share an address. With lld -Wl,-Ttext below 0x11000 puts the code \
        over the headers: take 0x11000 or more, or leave it out. riscv64-unknown-elf-readelf -l lists the segments.\n\
    entry||The entry is no address of the program, or no multiple of 4. Name the first function _start, as \
        flowcheck.h does, or give its name by -Wl,-e,NAME.\n\
    ";

/// What the faults of a region file mean.
const REGIONS: &str = "\
    json||It is no JSON: look for a comma, a quote or a bracket. python3 tools/lint.py PROG --regions FILE shows the \
        place and what was expected.\n\
    shape 0||It is not an object whose one key is `regions`, an array: {\"regions\":[..]}. python3 tools/lint.py \
        PROG --regions FILE shows the place and what was expected.\n\
    shape||Region N of the file, counted from 1, has the number of an earlier one, or a key or a value that no \
        region has. It has id, enter and leave, and may have outs, keep and ranges. python3 tools/lint.py PROG --regions \
        FILE shows the place and what was expected.\n\
    same-address||Region N of the file, counted from 1, is left where it is entered. Take as `leave` the instruction \
        after the call, or the last of the function.\n\
    enter-twice||Region N of the file, counted from 1, is entered where an earlier one is. Remove one of them.\n\
    register-twice||Region N of the file, counted from 1, names this register twice in `outs` and `keep` together. \
        Remove one of them.\n\
    too-many||There are so many regions, and at most 256 are taken. Enclose fewer calls.\n\
    ";

/// What the faults of a cut mean.
const CUTS: &str = "\
    version||Its first line is neither `flowcheck-cut 1` nor `flowcheck-cut 2`. Is this file the cut, which stands \
        after the public input? Or did measure refuse, and its refusal went into the file? Its lines end with a line \
        feed alone, not as those of Windows. tools/lint.py PROG CUT shows the line.\n\
    line 2||This line is of no form that may stand there. The lines are secret N, bits N, skip N, point REGION \
        ADDRESS SLOT MASKS rest MASK, and end. tools/lint.py PROG CUT shows the place.\n\
    line||This line is of no form that may stand there. A point is `point 0 0x00010018 rs rest 0x00000001`: words \
        one space apart, eight digits in lower case. tools/lint.py PROG CUT shows the place and what was expected.\n\
    order||This line does not follow the one before it in order. Skips ascend, and points by region, address and \
        slot; none stands twice. tools/lint.py PROG CUT shows the order of the slots.\n\
    truncated||Is this file the cut? It is the third file, after the public input. A cut ends with the line `end` \
        and a line feed, and this file ends earlier. An empty one is what a shell makes before a command that fails: \
        measure again.\n\
    trailing||Something follows the line `end`, from this byte on. Remove it; two cuts in one file are none.\n\
    ";

/// What the faults of a source mean.
const SOURCES: &str = "\
    line| kind 1|This line is no statement. Mnemonics are those of RV32IM in lower case, as `addi a0, x0, 1` and \
        `lbu t0, 0(a1)`; beside them there are nop, ret, mv, j, li, la, .word, .byte and .zero.\n\
    line| kind 2|This line does not stand at a multiple of 4. Put .byte or .zero before it until it does.\n\
    line| kind 3|With this line the program has more than 1,048,576 bytes. Take a smaller .zero.\n\
    line||There is no statement in it. Is it the right file?\n\
    label-twice||The label of this line is that of an earlier line. Give one of them another name.\n\
    label-missing||No line begins with the label that this line names. Is it spelled as where it stands, with a \
        colon there?\n\
    range||A number of this line, or the way to its label, does not fit the instruction. Immediates are -2048 to \
        2047: load a greater one by `li`. A branch reaches 4 KiB: jump further by `j`.\n\
    ";

/// What the faults of a certificate mean.
const CERTIFICATES: &str = "\
    line 1||This line is of no form that may stand there; the first one is `flowcheck-graph 1`. A certificate is \
        what flowcheck graph PROG PUBLIC SECRET writes: is this one?\n\
    line||This line is of no form that may stand there, stands out of order, or is missing. Make the certificate \
        again by flowcheck graph PROG PUBLIC SECRET.\n\
    ";
