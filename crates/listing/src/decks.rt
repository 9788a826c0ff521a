// The summary of a deck from each station on, from the tail forward: joined, and by hand.
use crate::by_hand::by_hand;
use crate::summary::Summary;
use book::Station;
use kinds::{House, house_from};
use std::io;

// Prints them, each line by itself, as a book's entries are printed.
pub fn print_decks(rt: &HostRuntime, stations: &[Station]) -> io::Result<()> {
    for from in (0..stations.len()).rev() {
        let joined = house_from::<House>(stations, from);
        let hand = by_hand(&stations[from..], from);
        let said = if joined == hand { "agrees" } else { "DIFFERS" };
        let joined = Summary(joined);
        let hand = Summary(hand);
        println!(rt; "deck from {from}: {joined}")?;
        println!(rt; "  by hand: {hand}, {said}")?;
    }
    Ok(())
}
