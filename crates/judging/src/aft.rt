ghost use Rattle.std.specs.Prelude.{◌≡◌, ◌+◌, ◌<◌};
ghost use Rattle.book.specs.Refusals.{answer};
ghost use Rattle.judging.specs.Breaches.{aft_breach};
ghost use Rattle.judging.specs.Decks.{Whole};
ghost use Rattle.judging.specs.Spots.{spots, last_failing, aft_kept};

use crate::breach::Breach;
use crate::running::{first_past, is_broken};
use book::Station;
use kinds::House;

// The limit on the masses from a station on: a function of its own, as for the fore limit.
fn aft_limit(station: &Station) -> Option<u32>
    ensures { result ≡ station.now.aft }
{
    station.aft
}

// The station before which so many were passed on the way from the tail.
fn from_tail(stations: usize, passed: usize) -> usize
    requires { passed < stations }
    ensures { result + passed + 1 ≡ stations }
{
    stations - passed - 1
}

// The last station whose aft limit does not bear the masses, looked for from the tail, and only where the deck's least aft
// margin is below 0.
fn past_aft(house: &House, stations: &[Station]) -> Option<usize>
    ensures { Whole stations.now house.now → result ≡ last_failing aft_kept 0 (spots stations.now) }
{
    if is_broken(house.load.aft) {
        let past = first_past(stations.iter().rev(), aft_limit);
        past.map(|passed| from_tail(stations.len(), passed))
    } else {
        None
    }
}

// Verdict 3: no aft margin is below 0, or the last station that has one.
pub(crate) fn check_aft(house: &House, stations: &[Station]) -> Result<(), Breach>
    ensures { Whole stations.now house.now → result ≡ answer (aft_breach stations.now) tt }
{
    past_aft(house, stations).map_or(Ok(()), |station| Err(Breach::PastAft { station }))
}
