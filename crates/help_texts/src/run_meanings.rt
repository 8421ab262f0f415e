//! Why a run is not measured, a secret not accepted or a path not clear, and what to change.

/// Why a run, or several together, are refused, or no declaration is learnt.
pub const RUNS: &str = "\
    turns||The run had not exited within so many turns. Give it more by --turns N, at most 20000000; if it never \
        ends, look for a loop without an end or a missing call of exit.\n\
    illegal| word 0x00000000|The run came to where there is no code. Did it run past the end of a function, without \
        ret or the call of exit, or jump by a bad pointer?\n\
    illegal||This word is no instruction of RV32IM; floating point, atomics, vectors and status registers are none. \
        Build all of it, libraries too, with -march=rv32im -mabi=ilp32.\n\
    fetch-outside||The run jumped out of the guest's memory. Look for a function pointer that is null, or a return \
        address that was overwritten.\n\
    fetch-unaligned||The run jumped to no multiple of 4. Look for a return address or a function pointer that was \
        overwritten, and build all of it with -march=rv32im.\n\
    load-outside||The guest read outside of its 16 MiB of memory. Look for a null pointer or a large index; with GNU \
        ld also give -Wl,--no-relax.\n\
    store-outside||The guest wrote outside of its 16 MiB of memory. Look for a null pointer or a large index; with \
        GNU ld also give -Wl,--no-relax.\n\
    breakpoint||The guest came to ebreak, which a compiler puts where a program must not come: after __builtin_trap, \
        __builtin_unreachable or abort.\n\
    output-limit||The guest would have written more than 1,048,576 bytes. Let it write less, or measure a shorter \
        run.\n\
    secret-code||The instruction at this address may depend on the secret: the guest wrote secret bytes over its own \
        code. Look for an array that overflows.\n\
    region| undeclared x|The region wrote a register that it does not declare. Add it to `outs`, or have flowcheck \
        learn PROG PUBLIC SECRET FILE write what the regions of FILE need.\n\
    region| undeclared 0x|The region wrote a byte that is in none of its ranges. Add a range, or have flowcheck \
        learn PROG PUBLIC SECRET FILE write what the regions of FILE need.\n\
    region| keep |The region left a register of `keep` with another value than at its entry. Declare it in `outs`.\n\
    region| call at|Inside the region the guest made a call of its own: it read, wrote or exited (ECALL). Calls of \
        functions may stand in a region, these may not: enclose less, so that reading and writing stand outside.\n\
    region| outside|A range of the region, counted from 0, was not inside guest memory where the region was entered. \
        Look at its base, offset and length.\n\
    region| secret|The base register of a range may depend on the secret where the region was entered, so nobody \
        could say which bytes it is. Give the range a fixed address, or enclose more.\n\
    region| ranges |The region writes at more places than the 64 ranges that it may have. Enclose less, or write one \
        longer range by hand.\n\
    region| bytes |The region writes more bytes than the 65,536 that its ranges may have. Enclose less.\n\
    text-size||The region file would have more than 65,536 bytes. Learn fewer regions at a time.\n\
    graph-limit||The graph of the run has more than 65,536 points or 1,048,576 links, or a capacity of 2^48 bits. \
        Enclose the busiest function in a region, by tools/regions.py, or take a shorter run.\n\
    united-limit||The graph of all runs together has more than 65,536 points or 1,048,576 links, or a capacity of \
        2^48 bits. Measure fewer secrets together, or enclose the busiest function in a region, by tools/regions.py.\n\
    budget-limit||So many bits are more than a budget may have, 1048576. Measure fewer secrets together, or shorter \
        ones.\n\
    length||Secrets that are measured together have one length, which is public. Did `echo` write a line feed at the \
        end of one? `printf` writes none. Else pad them, or measure those of each length by themselves.\n\
    memory||There was not enough memory.\n\
    ||docs/GUIDE.md says what this means.\n\
    ";

/// Why a secret is rejected or unclear, or a path is unclear.
pub const FINDINGS: &str = "\
    secret-length||secret-length: the cut is of secrets of another length than this file. Did `echo` write a line \
        feed at its end? `printf` writes none. If the length is meant, measure with this secret: each length has a cut \
        of its own, since the length is public.\n\
    budget||budget: more bits crossed at the cut than the budget allows. Take a BUDGET of at least the number after \
        `needed`; at most 2^BUDGET outputs arise then.\n\
    guest||guest: the run on this secret was stopped by a fault of the guest, as by a bad pointer; no cut helps. \
        Mend the guest: explain.py names the line.\n\
    region| base |region: where the region was entered the base register of a range may differ. Give the range a \
        fixed address, or enclose more.\n\
    region||region: the run did in the region what it does not declare. What the run of one secret needs is often \
        too narrow for the next: give both secrets to tools/regions.py, and measure again with the file that it writes.\n\
    replay short||replay: the replay went another way and asked for more bits than had crossed. The cut lacks a \
        point: write a new one by flowcheck measure-all PROG PUBLIC SECRET... >cut, of the secrets that it was measured \
        of and this one, and check all secrets again.\n\
    replay||replay: the replay, which sees only what crosses, was stopped. The cut lacks a point: write a new one by \
        flowcheck measure-all PROG PUBLIC SECRET... >cut, of the secrets that it was measured of and this one, and \
        check all secrets again.\n\
    parted||parted: the run decided by a bit that did not cross, so no budget helps. The cut lacks a point: write a \
        new one by flowcheck measure-all PROG PUBLIC SECRET... >cut, of the secrets that it was measured of and this \
        one, and check all secrets again.\n\
    output| index |output: what was written has a bit that did not cross, so no budget helps. The cut lacks a point: \
        write a new one by flowcheck measure-all PROG PUBLIC SECRET... >cut, of the secrets that it was measured of and \
        this one, and check all secrets again.\n\
    turns||turns: the run had not exited within so many turns. Give it more by --turns N, at most 20000000.\n\
    left||left: the run decides by this value, or shows it, and the bits of the mask have not crossed. Add to the \
        cut the line `point REGION ADDRESS SLOT rest MASK` with the words after `left`, so that addresses ascend.\n\
    secret-code||secret-code: the instruction at this address may differ with the secret. Look for an array that \
        overflows into the code.\n\
    paths||paths: there are more paths than that, and so many walks were not enough. Allow more by --paths N, at most \
        1048576, or enclose the decisions in a region.\n\
    outputs||outputs: the outputs together are too long to be told apart. Let the guest write less, or enclose the \
        decisions in a region.\n\
    ||docs/GUIDE.md says what this means.\n\
    ";

/// Why a certificate is rejected.
pub const VERDICTS: &str = "\
    over||More flows through this point than its capacity.\n\
    unbalanced||What flows in here differs from what flows out.\n\
    across||This link leaves the source side, so the sides are no cut.\n\
    values||The value, the flow out of the source and the capacity of the side are not all equal.\n\
    ";
