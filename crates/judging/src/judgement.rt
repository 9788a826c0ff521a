ghost use Rattle.book.specs.Envelopes.{polygon};
ghost use Rattle.judging.specs.Judges.{Judges};

use crate::breach::verdict_of;
use crate::checks::check_all;
use crate::deck::Deck;
use crate::occasion::Occasion;
use book::{Basic, Limits, Station};
use kinds::Judged;

// The verdict of a deck. It stands apart from `judge`, since it needs a lemma: so a wrong occasion is refused at the clause
// of `judge`, and not in a proof.
fn judged<J: Judged>(
    basic: &Basic,
    deck: &Deck<'_, J>,
    limits: &Limits<'_>,
    occasion: Occasion,
) -> (u8, usize)
    ensures { Judges J.Kind basic.now deck.now.stations.now deck.now.nodes.now limits.now.zones.now limits.now.frames.now (polygon limits.now.envelope.now) occasion result }
{
    verdict_of(check_all(basic, deck, limits, occasion))
}

// The first broken limit, by its code and its place: 1 a floor, 2 a fore limit and 3 an aft limit (at a station), 4 a
// zone, 5 a frame, 6 the trim of a standing deck or 7 the tip of a stage (at 0), and 0 at 0 where every limit is kept.
// The nodes are the deck's tree; on any others, and on records out of their limits, the answer is free.
pub fn judge<J: Judged>(
    basic: &Basic,
    stations: &[Station],
    nodes: &[J],
    limits: &Limits<'_>,
    occasion: Occasion,
) -> (u8, usize)
    ensures { Judges J.Kind basic.now stations.now nodes.now limits.now.zones.now limits.now.frames.now (polygon limits.now.envelope.now) occasion result }
{
    judged(basic, &Deck { stations, nodes }, limits, occasion)
}
