//! Reads each row as a region file, and prints its regions, or its first fault. What must be printed was found by hand.
//! Of regions a monitor is made too, and a row says if there is none.

mod ranges;

use enclosure_regions::{Monitor, Region, Regions, read_regions};
use ranges::RangeText;
use std::io;

/// Prints a region, and each of its ranges.
fn print_region(rt: &HostRuntime, region: &Region) -> io::Result<()> {
    let Region {
        id,
        enter,
        leave,
        ..
    } = region;
    let outs = region.outs.as_slice();
    let keep = region.keep.as_slice();
    println!(rt; "region {id} from {enter:x} to {leave:x} outs {outs:?} keep {keep:?}")?;
    for range in region.ranges.as_slice() {
        let range = RangeText(*range);
        println!(rt; "range {range}")?;
    }
    Ok(())
}

/// Prints how many regions there are, and each of them.
fn print_regions(rt: &HostRuntime, regions: &Regions) -> io::Result<()> {
    println!(rt; "{} regions", regions.items.len())?;
    for region in regions.items.as_slice() {
        print_region(rt, region)?;
    }
    Ok(())
}

/// Says if no monitor is made of a run with these regions, or one that has entered a region before its first turn.
fn make_monitor(rt: &HostRuntime, regions: &Regions) -> io::Result<()> {
    match Monitor::new(rt.alloc(), regions) {
        Ok(monitor) if monitor.entered().is_none() => Ok(()),
        _ => println!(rt; "no monitor"),
    }
}

/// Reads the region file of a row, and prints what comes of it.
pub fn follow(rt: &HostRuntime, row: &str) -> io::Result<()> {
    match read_regions(rt.alloc(), row.as_bytes()) {
        Ok(regions) => {
            print_regions(rt, &regions)?;
            make_monitor(rt, &regions)
        }
        Err(fault) => println!(rt; "{fault}"),
    }
}
