// A kind of summary and a test from outside the library: what it takes to write one's own.
#![tactic(auto)]

mod heaviest;
mod some_station;

use book::Station;
use heaviest::Heaviest;
use kinds::{deck_from, meets_from};
use some_station::SomeStation;
use std::io;

// The deck of the worked sheet: a constant, since this program reads no file.
const DECK: [Station; 3] = [
    Station {
        arm: -200,
        floor: 1_000,
        fore: Some(900),
        aft: None,
        mass: 800,
    },
    Station {
        arm: 0,
        floor: 2_000,
        fore: None,
        aft: Some(2_200),
        mass: 1_000,
    },
    Station {
        arm: 300,
        floor: 1_000,
        fore: Some(2_500),
        aft: None,
        mass: 600,
    },
];

fn print_from(rt: &HostRuntime, from: usize) -> io::Result<()> {
    let heaviest: Heaviest = deck_from(&DECK, from);
    let heavy = meets_from(&SomeStation { kg: 800 }, &DECK, from);
    println!(rt; "from {from}: {heaviest}, some station of 800 kg: {heavy}")
}

fn main(rt: HostRuntime) -> io::Result<()> {
    for from in 0..=DECK.len() {
        print_from(&rt, from)?;
    }
    Ok(())
}
