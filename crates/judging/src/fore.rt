ghost use Rattle.std.specs.Prelude.{◌≡◌};
ghost use Rattle.book.specs.Refusals.{answer, first_failing};
ghost use Rattle.judging.specs.Breaches.{fore_breach};
ghost use Rattle.judging.specs.Decks.{Whole};
ghost use Rattle.judging.specs.Spots.{spots, fore_kept};

use crate::breach::Breach;
use crate::running::{first_past, is_broken};
use book::Station;
use kinds::House;

// The limit on the masses up to a station: a function of its own, so that another limit fails at its clause.
fn fore_limit(station: &Station) -> Option<u32>
    ensures { result ≡ station.now.fore }
{
    station.fore
}

// The first station whose fore limit does not bear the masses, looked for from the nose, and only where the deck's least fore
// margin is below 0.
fn past_fore(house: &House, stations: &[Station]) -> Option<usize>
    ensures { Whole stations.now house.now → result ≡ first_failing fore_kept 0 (spots stations.now) }
{
    if is_broken(house.load.fore) {
        first_past(stations.iter(), fore_limit)
    } else {
        None
    }
}

// Verdict 2: no fore margin is below 0, or the first station that has one.
pub(crate) fn check_fore(house: &House, stations: &[Station]) -> Result<(), Breach>
    ensures { Whole stations.now house.now → result ≡ answer (fore_breach stations.now) tt }
{
    past_fore(house, stations).map_or(Ok(()), |station| Err(Breach::PastFore { station }))
}
