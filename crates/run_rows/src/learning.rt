//! The declaration that is learnt of a run.

use crate::guests::Guest;
use crate::rows::Row;
use crate::texts::put;
use enclosure_regions::Regions;
use region_learn::{LearnFault, learn, write_regions};

/// Prints regions as the text of a region file.
fn print_regions(rt: &HostRuntime, name: &str, regions: &Regions) -> bool {
    let text = write_regions(rt.alloc(), regions);
    match &text {
        Ok(text) => print!(rt; "{name}: ").is_ok() && put(rt, text.as_slice()),
        Err(_) => false,
    }
}

/// Prints what is learnt, or why nothing is.
fn print_learnt(rt: &HostRuntime, name: &str, learnt: &Result<Regions, LearnFault>) -> bool {
    match learnt {
        Ok(regions) => print_regions(rt, name, regions),
        Err(fault) => println!(rt; "{name}: {fault}").is_ok(),
    }
}

/// Prints what is learnt of a row, or why nothing is; whether it is printed.
pub fn print(rt: &HostRuntime, row: &Row<'_>, guest: &Guest<'_>) -> bool {
    let Some(secret) = guest.secrets.first() else {
        return false;
    };
    let learnt = learn(
        rt.alloc(),
        guest.image,
        guest.public,
        secret,
        guest.regions,
        row.limits.turns,
    );
    print_learnt(rt, row.name, &learnt)
}
