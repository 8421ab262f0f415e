//! The verdict on a secret with one machine.

use crate::guests::Guest;
use crate::rows::Row;
use crate::texts::put_bits;
use flow_base::{NoMemory, Output};
use taint_check::{TaintVerdict, taint};
use transfer_rules::RuleBook;

const MOST_BITS: u32 = 1_048_576;

/// Prints the bits that crossed, and an output.
fn print_clean(rt: &HostRuntime, name: &str, bits: &[bool], output: &Output) -> bool {
    print!(rt; "{name}: clean bits ").is_ok()
        && put_bits(rt, bits)
        && println!(rt;
            " output {:?} status {}",
            output.bytes.as_slice(),
            output.status
        )
        .is_ok()
}

/// Prints a verdict.
fn print_verdict(rt: &HostRuntime, name: &str, verdict: &Result<TaintVerdict, NoMemory>) -> bool {
    match verdict {
        Ok(TaintVerdict::Clean { bits, output }) => print_clean(rt, name, bits.as_slice(), output),
        Ok(TaintVerdict::Unclear(why)) => println!(rt; "{name}: unclear {why}").is_ok(),
        Err(_) => false,
    }
}

/// Prints the verdict on the first secret of a row; whether there is one, and it is printed.
pub fn print(rt: &HostRuntime, row: &Row<'_>, guest: &Guest<'_>, book: &RuleBook) -> bool {
    let Some(secret) = guest.secrets.first() else {
        return false;
    };
    let verdict = taint(
        rt.alloc(),
        guest.image,
        guest.public,
        secret,
        guest.regions,
        guest.cut,
        book,
        row.limits.budget.min(MOST_BITS),
        row.limits.turns,
    );
    print_verdict(rt, row.name, &verdict)
}
