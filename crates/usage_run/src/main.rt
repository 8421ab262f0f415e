//! The program, which is run without words: no command line.
#![tactic(auto)]

use program::run;
use std::process::ExitCode;

fn main(rt: HostRuntime) -> ExitCode {
    run(rt)
}
