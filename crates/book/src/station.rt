ghost use Rattle.std.specs.Prelude.{◌≡◌, pos, ◌*ℤ◌, Decides};
ghost use Rattle.book.specs.Fields.{station_in, Lawful};
ghost use Rattle.book.specs.Refusals.{answer, count_refusal, station_refusal, NamesFirst};

use crate::fault::BookFault;
use crate::ranges::{arm_in, limit_in};
use crate::rule::check_each;

// A place on the deck: where it lies, what its floor bears, what the deck up to it and from it on may
// carry (a station may have no such limit), and the mass that stands there now. Kilograms and centimetres.
#[derive(Clone, Copy, Debug, PartialEq, Eq)]
pub struct Station {
    pub arm: i32,
    pub floor: u32,
    pub fore: Option<u32>,
    pub aft: Option<u32>,
    pub mass: u32,
}

impl Station {
    // Whether every field lies in its limits.
    pub fn in_limits(&self) -> bool
        ensures value { result ≡ station_in self.now }
        ensures means { Decides result (Lawful self.now) }
    {
        arm_in(self.arm)
            && self.floor <= 30_000
            && limit_in(self.fore)
            && limit_in(self.aft)
            && self.mass <= 30_000
    }

    // Its mass times its arm, whatever they are: neither can be so large that the product leaves its type.
    pub fn moment(&self) -> i64
        ensures { result ≡ pos self.now.mass *ℤ self.now.arm }
    {
        i64::from(self.mass) * i64::from(self.arm)
    }
}

// A deck has 1 to 256 stations.
pub fn check_count(stations: &[Station]) -> Result<(), BookFault>
    ensures { result ≡ answer (count_refusal stations.now) tt }
{
    if !(1..=256).contains(&stations.len()) {
        return Err(BookFault::StationCount);
    }
    Ok(())
}

// Every station's fields lie in their limits, or the first whose do not is named.
pub fn check_stations(stations: &[Station]) -> Result<(), BookFault>
    ensures value { result ≡ answer (station_refusal stations.now) tt }
    ensures first { NamesFirst station_in stations.now }
{
    check_each(stations, Station::in_limits, |station| {
        BookFault::StationField { station }
    })
}
