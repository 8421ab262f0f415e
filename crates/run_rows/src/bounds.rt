//! What all paths show.

use crate::guests::Guest;
use crate::rows::Row;
use crate::texts::put_bits;
use every_secret::{
    BoundVerdict, Bounded, Pattern, PublicInput, StoppedPath, bound, output_bits, output_count,
};
use flow_base::NoMemory;
use transfer_rules::RuleBook;

const MOST_BITS: u32 = 1_048_576;

/// Prints a pattern.
fn print_pattern(rt: &HostRuntime, pattern: &Pattern) -> bool {
    println!(rt;
        "  bytes {:?} status {} masks {:?} {}",
        pattern.bytes.as_slice(),
        pattern.status,
        pattern.byte_masks.as_slice(),
        pattern.status_mask
    )
    .is_ok()
}

/// Prints patterns.
fn print_patterns(rt: &HostRuntime, patterns: &[Pattern]) -> bool {
    for pattern in patterns {
        if !print_pattern(rt, pattern) {
            return false;
        }
    }
    true
}

/// Prints how many bits the outputs need for which patterns stand.
fn print_size(rt: &HostRuntime, patterns: &[Pattern]) -> bool {
    match output_bits(rt.alloc(), patterns) {
        Ok(bits) => println!(rt; " bits {bits}").is_ok(),
        Err(_) => false,
    }
}

/// Prints the first path that stops, if one does.
fn print_stop(rt: &HostRuntime, stopped: &Option<StoppedPath>) -> bool {
    match stopped {
        Some(stopped) => {
            print!(rt; "  stopped ").is_ok()
                && put_bits(rt, stopped.bits.as_slice())
                && println!(rt; " {}", stopped.stop).is_ok()
        }
        None => true,
    }
}

/// Prints a number after a word, a dash where it is 2 ^ 64 or more.
fn print_number(rt: &HostRuntime, word: &str, number: Option<u64>) -> bool {
    match number {
        Some(number) => print!(rt; " {word} {number}").is_ok(),
        None => print!(rt; " {word} -").is_ok(),
    }
}

/// Prints what all paths show.
fn print_bounded(rt: &HostRuntime, name: &str, bounded: &Bounded) -> bool {
    let patterns = bounded.patterns.as_slice();
    print!(rt; "{name}: bounded").is_ok()
        && print_number(rt, "paths", bounded.paths)
        && print_number(rt, "stopped", bounded.stopped)
        && print_number(rt, "outputs", output_count(patterns))
        && print_size(rt, patterns)
        && print_patterns(rt, patterns)
        && print_stop(rt, &bounded.first_stop)
}

/// Prints an answer.
fn print_verdict(rt: &HostRuntime, name: &str, verdict: &Result<BoundVerdict, NoMemory>) -> bool {
    match verdict {
        Ok(BoundVerdict::Bounded(bounded)) => print_bounded(rt, name, bounded),
        Ok(BoundVerdict::Unclear { path, why }) => {
            print!(rt; "{name}: unclear ").is_ok()
                && put_bits(rt, path.as_slice())
                && println!(rt; " {why}").is_ok()
        }
        Ok(BoundVerdict::TooMany { path, limit }) => {
            print!(rt; "{name}: unclear ").is_ok()
                && put_bits(rt, path.as_slice())
                && println!(rt; " paths {limit}").is_ok()
        }
        Err(_) => false,
    }
}

/// Prints the answer to a row; whether there is one, and it is printed.
pub fn print(rt: &HostRuntime, row: &Row<'_>, guest: &Guest<'_>, book: &RuleBook) -> bool {
    let verdict = bound(
        rt.alloc(),
        guest.image,
        guest.public,
        PublicInput::Given,
        guest.regions,
        guest.cut,
        book,
        row.limits.budget.min(MOST_BITS),
        row.limits.turns,
        row.limits.paths.max(1),
    );
    print_verdict(rt, row.name, &verdict)
}
