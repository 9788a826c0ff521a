// Reads the book of a load-and-trim sheet, prints it back, its totals and whether trim and tip are kept,
// and then opens a sheet on it and carries out each call on standard input.
#![tactic(auto)]

mod answer;
mod asked;
mod calls;
mod deck_tree;
mod desk;
mod nodes;
mod stage_bytes;

use book::Totals;
use calls::answer_calls;
use deck_tree::{first_said, range_said};
use kinds::{ForeBroken, House};
use listing::{BookText, Failure, Kept, Lists, Refusal, print_decks, read_book};
use nodes::nodes_of;
use std::io;
use std::process::ExitCode;
use tree::{fill, first, range};

// Prints what the segment tree of the deck answers: the whole deck, each zone, and the first station with a
// fore margin below 0.
fn print_tree(rt: &HostRuntime, lists: &Lists) -> io::Result<()> {
    let stations = lists.stations.as_slice();
    let count = stations.len();
    let mut nodes = nodes_of::<House>(rt.alloc(), count)?;
    // Where it fails, the answers below say so.
    let _ = fill(&mut nodes, stations);
    let whole = range_said(range(&nodes, count, 0, count));
    println!(rt; "whole deck: {whole}")?;
    for (number, zone) in lists.zones.iter().enumerate() {
        let said = range_said(range(&nodes, count, zone.from, zone.to));
        println!(rt; "zone {number}: {said}")?;
    }
    let first = first_said(first(&ForeBroken, &nodes, count));
    println!(rt; "first station with a fore margin below 0: {first}")
}

// Prints the totals, and whether trim and tip are kept, up to the first refusal. `loadsheet` has no tree between them:
// one function for both would take a closure that prints, and read no plainer.
fn print_judgement(rt: &HostRuntime, book: &BookText) -> io::Result<()> {
    let stations = book.lists.stations.as_slice();
    let totals = match Totals::of(&book.basic, stations) {
        Ok(totals) => totals,
        Err(fault) => return rt.println(Refusal::from(fault)),
    };
    print_decks(rt, stations)?;
    print_tree(rt, &book.lists)?;
    let Totals { mass, moment } = totals;
    println!(rt; "total: mass {mass} kg, moment {moment} kg cm")?;
    match Kept::by(book, totals) {
        Ok(kept) => rt.println(kept),
        Err(fault) => rt.println(Refusal::from(fault)),
    }
}

fn run(rt: &HostRuntime) -> Result<(), Failure> {
    let book = read_book(rt, "sheet_calls")?;
    book.print(rt)?;
    print_judgement(rt, &book)?;
    answer_calls(rt, &book)?;
    Ok(())
}

// A program's `main` stays whole, so that it is read in one place.
fn main(rt: HostRuntime) -> ExitCode {
    match run(&rt) {
        Ok(()) => ExitCode::SUCCESS,
        Err(failure) => {
            let _ = rt.eprintln(failure);
            ExitCode::FAILURE
        }
    }
}
