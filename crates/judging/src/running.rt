ghost use Rattle.std.specs.Prelude.{◌≡◌, ◌+◌, ◌-◌, ◌^◌, min};
ghost use Rattle.std.specs.Iterator.{IsFinite};
ghost use Rattle.std.specs.Iterator.Runs.{CountFits};
ghost use Rattle.kinds.specs.Loads.{left_of};
ghost use Rattle.kinds.specs.Tests.{below_zero};
ghost use Rattle.judging.specs.Spots.{margin_kept};
ghost use Rattle.judging.specs.Steps.{FirstPast};

use book::Station;

// A carried mass with one station's more; what would leave its type stays at the end of it.
fn with_station(carried: u32, station: &Station) -> u32
    ensures { result ≡ min (carried + station.now.mass) (2 ^ 32 - 1) }
{
    carried.saturating_add(station.mass)
}

// Whether a limit, if there is one, bears this mass.
fn bears(limit: Option<u32>, mass: u32) -> bool
    ensures { result ≡ margin_kept (left_of limit mass) }
{
    limit.is_none_or(|kg| mass <= kg)
}

// Whether a least margin is there and below 0.
pub(crate) fn is_broken(margin: Option<i64>) -> bool
    ensures { result ≡ below_zero margin }
{
    margin.is_some_and(|kg| kg < 0)
}

// How many stations on a way along the deck come before the first whose limit does not bear the masses up to it.
pub(crate) fn first_past<
    'a,
    W: Iterator<Item = &'a Station> + Drop,
    L: Fn(&Station) -> Option<u32>,
>(way: W, limit: L) -> Option<usize>
    requires can { W.can_next way }
    requires finite { IsFinite (W.remaining way) }
    requires fits { CountFits W.next_gives W.remaining 0 way }
    requires callable { L.IsAlwaysCallable limit }
    ensures { FirstPast W.next_gives L.Fn way limit result }
{
    let mut carried = 0;
    for (passed, station) in way.enumerate() {
        carried = with_station(carried, station);
        if !bears(limit(station), carried) {
            return Some(passed);
        }
    }
    None
}
