// What the segment tree of a deck answers, as it is printed.
use kinds::House;
use listing::{OrWord, Summary};
use std::fmt;
use tree::Misfit;

// The answer to a range.
pub(crate) fn range_said(answer: Result<House, Misfit>) -> OrWord<Summary> {
    OrWord(answer.ok().map(Summary), "no such range")
}

// The first station that was asked for.
pub(crate) fn first_said(answer: Result<Option<usize>, Misfit>) -> OrWord<OrWord<StationSaid>> {
    OrWord(answer.ok().map(station_said), "no deck")
}

pub(crate) fn station_said(station: Option<usize>) -> OrWord<StationSaid> {
    OrWord(station.map(StationSaid), "none")
}

// A station by its number.
#[derive(Clone, Copy)]
pub struct StationSaid(usize);

impl fmt::Display for StationSaid {
    fn fmt<W: fmt::Write>(&self, f: &mut fmt::Formatter<W>) -> fmt::Result {
        let station = self.0;
        write!(f, "station {station}")
    }
}
