//! The measure of one run, and that of several together.

use crate::guests::Guest;
use crate::rows::Row;
use crate::texts::put_cut;
use cut_file::{Cut, fold};
use many_runs::{Many, ManyFault, measure_all};
use measuring::{MeasureFault, Measured, measure};
use transfer_rules::RuleBook;

/// Prints a measure: its number, its turns, the points of its graph, and its cut.
fn print_measured(rt: &HostRuntime, measured: &Measured) -> bool {
    let points = measured.graph.points.len();
    println!(rt;
        "{} bits in {} turns through {points} points",
        measured.value, measured.turns
    )
    .is_ok()
        && put_cut(rt, &measured.cut)
}

/// Prints a measure, where there is one.
fn print_found(rt: &HostRuntime, found: &Result<Measured, MeasureFault>) -> bool {
    match found {
        Ok(measured) => print_measured(rt, measured),
        Err(_) => false,
    }
}

/// Prints the measure of the run of the first secret; whether there is one, and it is printed.
pub fn print_one(rt: &HostRuntime, row: &Row<'_>, guest: &Guest<'_>, book: &RuleBook) -> bool {
    let Some(secret) = guest.secrets.first() else {
        return false;
    };
    let found = measure(
        rt.alloc(),
        guest.image,
        guest.public,
        secret,
        guest.regions,
        book,
        row.limits.turns,
    );
    print_found(rt, &found)
}

/// Prints the text of the fold of a cut, which is in version 1.
fn put_fold(rt: &HostRuntime, cut: &Cut) -> bool {
    if cut.version != 1 {
        return false;
    }
    let folded = fold(rt.alloc(), cut);
    match &folded {
        Ok(folded) => put_cut(rt, folded),
        Err(_) => false,
    }
}

/// Prints the one cut of several runs and its fold, or why there is none.
fn print_many(rt: &HostRuntime, name: &str, many: &Result<Many, ManyFault>) -> bool {
    match many {
        Ok(many) => {
            println!(rt; "{name}:").is_ok() && put_cut(rt, &many.cut) && put_fold(rt, &many.cut)
        }
        Err(fault) => println!(rt; "{name}: {fault}").is_ok(),
    }
}

/// Prints the one cut of the runs of all secrets and its fold, or why there is none; whether it is printed.
pub fn print_all(rt: &HostRuntime, row: &Row<'_>, guest: &Guest<'_>, book: &RuleBook) -> bool {
    let secrets = guest.secrets.all();
    if secrets.is_empty() {
        return false;
    }
    let many = measure_all(
        rt.alloc(),
        guest.image,
        guest.public,
        secrets,
        guest.regions,
        book,
        row.limits.turns,
    );
    print_many(rt, row.name, &many)
}
