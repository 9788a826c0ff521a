ghost use Rattle.std.specs.Prelude.{◌≡◌, ℕ, ◌+◌, ◌<◌, ◌≤◌, List, length, drop};
ghost use Rattle.book.specs.declared.station.Station.{Station};
ghost use Rattle.kinds.specs.Direct.{Summary};
ghost use Rattle.kinds.specs.Folds.{reading_at, JoinedFrom, OnDeck};
ghost use Rattle.kinds.specs.Houses.{house_at};
ghost use Rattle.kinds.specs.Meaning.{KindsMean};

use crate::beside::Beside;
use crate::house::House;
use crate::judged::Judged;
use crate::kind::Kind;
use crate::test_of::Test;
use book::Station;

// Station i joined in front of the stations aft of it.
fn in_front<K: Kind>(stations: &[Station], i: usize, aft: K) -> K
    requires { i < length stations.now }
    ensures { JoinedFrom K.Kind stations.now (i + 1) aft → JoinedFrom K.Kind stations.now i result }
{
    K::station(i, &stations[i]).join(aft)
}

// The house reading of a summary of stations is what the stations themselves say.
fn house_of<J: Judged>(summary: J) -> House
    ensures { (n : ℕ) (ss : List Station) → length ss ≤ 256 → J.reading summary ≡ reading_at J.Kind n ss → J.stands summary (length ss) → (result ≡ house_at n ss) × Summary n ss result }
{
    summary.house()
}

// The summary of the deck from a station on, joined nose to tail: for every kind, what the stations read as.
pub fn deck_from<K: Kind>(stations: &[Station], from: usize) -> K
    ensures { JoinedFrom K.Kind stations.now from result }
{
    let mut summary = K::empty();
    for i in (from..stations.len()).rev() {
        summary = in_front(stations, i, summary);
    }
    summary
}

// The house summary of the same: it is what the stations themselves say.
pub fn house_from<J: Judged>(stations: &[Station], from: usize) -> House
    ensures joined { OnDeck stations.now (result ≡ house_at from (drop from stations.now)) }
    ensures means { OnDeck stations.now (Summary from (drop from stations.now) result) }
    ensures always { KindsMean }
{
    house_of(deck_from::<J>(stations, from))
}

// Whether the deck from a station on meets a test.
pub fn meets_from<T: Test>(test: &T, stations: &[Station], from: usize) -> bool
    ensures { OnDeck stations.now (result ≡ T.Test.meets test.now (reading_at T.Of.Kind from (drop from stations.now))) }
{
    test.met(deck_from::<T::Of>(stations, from))
}

// Two kinds side by side: each part is that kind's own summary of the deck from a station on.
#[tactic(auto, using(crate::proofs::Folding::one_side, crate::proofs::Folding::other_side))]
pub fn beside_from<X: Kind, Y: Kind>(stations: &[Station], from: usize) -> Beside<X, Y>
    ensures one { JoinedFrom X.Kind stations.now from result.one }
    ensures other { JoinedFrom Y.Kind stations.now from result.other }
{
    deck_from::<Beside<X, Y>>(stations, from)
}
