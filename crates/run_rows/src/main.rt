//! Answers the rows of a table on runs of small guests: the verdict on a secret with one machine, a learnt declaration, the
//! measure of one run by a book of mask rules, the one cut of several runs with its fold, and all outputs of all paths.
//! What must be printed was found by hand, or by independent models.
#![tactic(auto)]

mod answering;
mod bounds;
mod files;
mod guests;
mod learning;
mod measures;
mod rows;
mod secrets;
mod taints;
mod texts;

use answering::print_answer;
use std::io;

fn main(rt: HostRuntime) -> io::Result<()> {
    for line in rt.lines(rt.alloc()) {
        print_answer(&rt, line?.as_str())?;
    }
    Ok(())
}
