ghost use Rattle.std.specs.Prelude.{◌≡◌, ◌≤◌, length, None};
ghost use Rattle.book.specs.Refusals.{answer, first_failing, zone_refusal};
ghost use Rattle.tree.specs.Trees.{SegmentTree};
ghost use Rattle.judging.specs.Breaches.{zone_breach};
ghost use Rattle.judging.specs.Judgement.{zone_kept};
ghost use Rattle.judging.specs.Steps.{zone_bears};

use crate::breach::Breach;
use crate::deck::Deck;
use crate::firsts::first_failing;
use book::Zone;
use kinds::{Judged, MassMoment};

// Whether the zone bears this load.
fn bears(zone: &Zone, load: &MassMoment) -> bool
    ensures { result ≡ zone_bears zone.now load.now }
{
    load.mass <= i64::from(zone.limit)
}

// Whether it bears what stands on it.
fn keeps<J: Judged>(zone: &Zone, deck: &Deck<'_, J>) -> bool
    ensures { SegmentTree J.Kind deck.now.nodes.now deck.now.stations.now → zone.now.to ≤ length deck.now.stations.now → result ≡ zone_kept deck.now.stations.now zone.now }
{
    bears(zone, &deck.part(zone.from, zone.to).moments)
}

// The first zone that does not.
fn first_over<J: Judged>(zones: &[Zone], deck: &Deck<'_, J>) -> Option<usize>
    ensures { SegmentTree J.Kind deck.now.nodes.now deck.now.stations.now → zone_refusal (length deck.now.stations.now) zones.now ≡ None → result ≡ first_failing (zone_kept deck.now.stations.now) 0 zones.now }
{
    first_failing(zones, |zone| keeps(zone, deck))
}

// Verdict 4: every zone bears its stations, or the first that does not.
pub(crate) fn check_zones<J: Judged>(zones: &[Zone], deck: &Deck<'_, J>) -> Result<(), Breach>
    ensures { SegmentTree J.Kind deck.now.nodes.now deck.now.stations.now → zone_refusal (length deck.now.stations.now) zones.now ≡ None → result ≡ answer (zone_breach deck.now.stations.now zones.now) tt }
{
    first_over(zones, deck).map_or(Ok(()), |zone| Err(Breach::OverZone { zone }))
}
