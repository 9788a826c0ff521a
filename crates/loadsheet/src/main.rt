// Reads the book of a load-and-trim sheet, prints it back, its totals and whether trim and tip are kept,
// and then echoes each call on standard input through the record writer and reader.
#![tactic(auto)]

mod answer;
mod call_text;

use answer::Answer;
use book::Totals;
use listing::{BadLine, BookText, Failure, Kept, Refusal, print_decks, read_book};
use std::io;
use std::io::{BufRead, BufReader};
use std::process::ExitCode;

// Prints the totals, and whether trim and tip are kept, up to the first refusal.
fn print_judgement(rt: &HostRuntime, book: &BookText) -> io::Result<()> {
    let stations = book.lists.stations.as_slice();
    let totals = match Totals::of(&book.basic, stations) {
        Ok(totals) => totals,
        Err(fault) => return rt.println(Refusal::from(fault)),
    };
    print_decks(rt, stations)?;
    let Totals { mass, moment } = totals;
    println!(rt; "total: mass {mass} kg, moment {moment} kg cm")?;
    match Kept::by(book, totals) {
        Ok(kept) => rt.println(kept),
        Err(fault) => rt.println(Refusal::from(fault)),
    }
}

// Answers each call on standard input by a line of its own.
fn answer_calls(rt: &HostRuntime) -> io::Result<()> {
    let lines = BufReader::new(rt.alloc(), rt.stdin())?.split(rt.alloc(), b'\n');
    for (index, line) in lines.enumerate() {
        answer_line(rt, index.saturating_add(1), line?.as_slice())?;
    }
    Ok(())
}

fn answer_line(rt: &HostRuntime, number: usize, line: &[u8]) -> io::Result<()> {
    match Answer::to(line) {
        Ok(Some(answer)) => rt.println(answer),
        Ok(None) => Ok(()),
        Err(wrong) => rt.println(BadLine { number, wrong }),
    }
}

fn run(rt: &HostRuntime) -> Result<(), Failure> {
    let book = read_book(rt, "loadsheet")?;
    book.print(rt)?;
    print_judgement(rt, &book)?;
    answer_calls(rt)?;
    Ok(())
}

// A program's `main` stays whole, so that it is read in one place.
fn main(rt: HostRuntime) -> ExitCode {
    match run(&rt) {
        Ok(()) => ExitCode::SUCCESS,
        Err(failure) => {
            let _ = rt.eprintln(failure);
            ExitCode::FAILURE
        }
    }
}
