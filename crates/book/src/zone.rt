ghost use Rattle.std.specs.Prelude.{◌≡◌, ◌≤◌, length};
ghost use Rattle.book.specs.Fields.{zone_in};
ghost use Rattle.book.specs.Refusals.{answer, zone_refusal, NamesFirst};

use crate::fault::BookFault;
use crate::rule::check_each;

// The stations from `from` up to `to` - 1, and what they may carry together.
#[derive(Clone, Copy, Debug, PartialEq, Eq)]
pub struct Zone {
    pub from: usize,
    pub to: usize,
    pub limit: u32,
}

impl Zone {
    // Whether it has a station, ends on a deck of so many stations, and has its limit in range.
    fn in_limits(&self, stations: usize) -> bool
        ensures { result ≡ zone_in stations self.now }
    {
        self.from < self.to && self.to <= stations && self.limit <= 10_000_000
    }
}

// At most 32 zones, each of at least one station of the deck, or the first that is not is named.
pub fn check_zones(zones: &[Zone], stations: usize) -> Result<(), BookFault>
    ensures value { result ≡ answer (zone_refusal stations zones.now) tt }
    ensures first { length zones.now ≤ 32 → NamesFirst (zone_in stations) zones.now }
{
    if zones.len() > 32 {
        return Err(BookFault::ZoneCount);
    }
    check_each(
        zones,
        |zone| zone.in_limits(stations),
        |zone| BookFault::ZoneField { zone },
    )
}
