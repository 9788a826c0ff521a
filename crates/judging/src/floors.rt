ghost use Rattle.std.specs.Prelude.{◌≡◌, List};
ghost use Rattle.book.specs.declared.station.Station.{Station};
ghost use Rattle.book.specs.Refusals.{answer, first_failing};
ghost use Rattle.kinds.specs.Houses.{house_at};
ghost use Rattle.judging.specs.Breaches.{floor_breach};
ghost use Rattle.judging.specs.Spots.{spots, floor_kept};
ghost use Rattle.judging.specs.Steps.{place_of};

use crate::breach::Breach;
use kinds::{FloorRecord, House};

// The station of a floor record.
fn station_of(floors: &FloorRecord) -> Option<usize>
    ensures { result ≡ place_of floors.now.first }
{
    floors.first.map(|over| over.station)
}

// The first station over its floor limit, by the deck's summary.
fn first_over(house: &House) -> Option<usize>
    ensures { (ss : List Station) → house.now ≡ house_at 0 ss → result ≡ first_failing floor_kept 0 (spots ss) }
{
    station_of(&house.floors)
}

// Verdict 1: every floor bears its load, or the first station over its floor limit.
pub(crate) fn check_floors(house: &House) -> Result<(), Breach>
    ensures { (ss : List Station) → house.now ≡ house_at 0 ss → result ≡ answer (floor_breach ss) tt }
{
    first_over(house).map_or(Ok(()), |station| Err(Breach::OverFloor { station }))
}
