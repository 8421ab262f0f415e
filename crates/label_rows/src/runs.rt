//! Makes the measured runs of the guests of a table, and prints the events of each turn and what the turn answers, one
//! line each. What must be printed is what an independent model of the rules finds of the same guests.

mod guests;
mod lines;
mod programs;
mod texts;

use elf32_loader::Image;
use flow_base::NoMemory;
use flow_graph::EventList;
pub use guests::Guest;
use lines::{Line, read_line};
use programs::program;
use std::io;
use texts::{AnswerText, EventText};
use tracked_run::{Tracked, TrackedTurn};
use transfer_rules::book_1;

/// Prints events.
fn print_events(rt: &HostRuntime, events: &EventList) -> io::Result<()> {
    for event in events.events().as_slice() {
        let event = EventText(*event);
        println!(rt; "{event}")?;
    }
    Ok(())
}

/// Prints that memory is short.
fn print_shortage(rt: &HostRuntime) -> io::Result<()> {
    println!(rt; "memory is short")
}

/// Prints what a turn answers, and before it the turn's events where it is not refused.
fn print_row(rt: &HostRuntime, events: &EventList, answer: TrackedTurn) -> io::Result<()> {
    if !matches!(answer, TrackedTurn::Refused(_)) {
        print_events(rt, events)?;
    }
    let answer = AnswerText(answer);
    println!(rt; "{answer}")
}

/// Prints what is told of a turn; whether the run goes on.
fn print_turn(
    rt: &HostRuntime,
    events: &EventList,
    told: Result<TrackedTurn, NoMemory>,
) -> io::Result<bool> {
    match told {
        Ok(answer) => {
            print_row(rt, events, answer)?;
            Ok(matches!(answer, TrackedTurn::Ran))
        }
        Err(_) => {
            print_shortage(rt)?;
            Ok(false)
        }
    }
}

/// Makes the run of a guest, by the image of its program, and prints its first turns. The run is made and followed here:
/// it holds the functions of a book, and a function that is handed such may not be trusted by its contract alone.
fn print_run_of(rt: &HostRuntime, guest: &Guest, image: &Image, turns: u32) -> io::Result<()> {
    let book = book_1!();
    let Ok(mut tracked) = Tracked::new(
        rt.alloc(),
        image,
        guest.public(),
        guest.secret(),
        guest.regions(),
        &book,
    ) else {
        return print_shortage(rt);
    };
    for _ in 0..turns {
        let mut events = EventList::new(rt.alloc());
        let told = tracked.turn(&mut events);
        if !print_turn(rt, &events, told)? {
            break;
        }
    }
    Ok(())
}

/// Makes the run of a guest and prints its first turns, up to its end, but at most so many.
fn print_run(rt: &HostRuntime, guest: &Guest, turns: u32) -> io::Result<()> {
    match program(rt.alloc(), guest.code()) {
        Some(image) => print_run_of(rt, guest, &image, turns),
        None => println!(rt; "no program"),
    }
}

/// Does what a line of the table says.
pub fn follow(rt: &HostRuntime, guest: &mut Guest, line: &str) -> io::Result<()> {
    match read_line(line) {
        Some(Line::Guest(name)) => {
            *guest = Guest::new(rt.alloc());
            println!(rt; "guest {name}")
        }
        Some(Line::Part(part, text)) => match guest.put(rt.alloc(), part, text) {
            Some(()) => Ok(()),
            None => println!(rt; "no part of a guest"),
        },
        Some(Line::Turns(turns)) => print_run(rt, guest, turns),
        None => println!(rt; "no line of a table"),
    }
}
