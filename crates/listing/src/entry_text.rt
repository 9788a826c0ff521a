// The entries of a book as they are printed back.
use crate::arm::Arm;
use crate::entry::Entry;
use crate::lists::Numbered;
use crate::or_word::OrWord;
use book::{Basic, Frame, Side, Station, Vertex, Zone};
use std::fmt;

// Kilograms, as a limit has them.
#[derive(Clone, Copy)]
struct Kilograms(u32);

impl fmt::Display for Kilograms {
    fn fmt<W: fmt::Write>(&self, f: &mut fmt::Formatter<W>) -> fmt::Result {
        let kg = self.0;
        write!(f, "{kg} kg")
    }
}

impl fmt::Display for Numbered {
    fn fmt<W: fmt::Write>(&self, f: &mut fmt::Formatter<W>) -> fmt::Result {
        let number = self.number;
        match self.entry {
            Entry::Basic(basic) => show_basic(basic, f),
            Entry::Station(station) => show_station(number, station, f),
            Entry::Zone(Zone { from, to, limit }) => {
                write!(f, "zone {number}: stations {from}..{to}, limit {limit} kg")
            }
            Entry::Frame(frame) => show_frame(number, frame, f),
            Entry::Vertex(Vertex { mass, moment }) => {
                write!(f, "vertex {number}: mass {mass} kg, moment {moment} kg cm")
            }
        }
    }
}

// No `Display` of `book`'s types: `book` prints nothing, and a station has its number from the list.
fn show_basic<W: fmt::Write>(basic: Basic, f: &mut fmt::Formatter<W>) -> fmt::Result {
    let Basic {
        mass,
        moment,
        tip_arm,
        allowance,
    } = basic;
    let arm = Arm::from(tip_arm);
    write!(
        f,
        "basic: mass {mass} kg, moment {moment} kg cm, tip arm {arm}, allowance {allowance} kg"
    )
}

fn show_station<W: fmt::Write>(
    number: usize,
    station: Station,
    f: &mut fmt::Formatter<W>,
) -> fmt::Result {
    let Station {
        arm,
        floor,
        fore,
        aft,
        mass,
    } = station;
    let arm = Arm::from(arm);
    let fore = OrWord(fore.map(Kilograms), "none");
    let aft = OrWord(aft.map(Kilograms), "none");
    write!(
        f,
        "station {number}: arm {arm}, floor limit {floor} kg, fore limit {fore}, aft limit {aft}, mass {mass} kg"
    )
}

fn show_frame<W: fmt::Write>(
    number: usize,
    frame: Frame,
    f: &mut fmt::Formatter<W>,
) -> fmt::Result {
    let Frame { arm, side, limit } = frame;
    let arm = Arm::from(arm);
    let side = match side {
        Side::Fore => "fore",
        Side::Aft => "aft",
    };
    write!(
        f,
        "frame {number}: arm {arm}, {side} side, limit {limit} kg cm"
    )
}
