ghost use Rattle.std.specs.Prelude.{◌≡◌, length, None};
ghost use Rattle.book.specs.Envelopes.{polygon};
ghost use Rattle.book.specs.Refusals.{answer, basic_refusal, zone_refusal};
ghost use Rattle.judging.specs.Breaches.{first_breach};
ghost use Rattle.judging.specs.Decks.{Sound};

use crate::aft::check_aft;
use crate::breach::Breach;
use crate::closing::check_closing;
use crate::deck::Deck;
use crate::floors::check_floors;
use crate::fore::check_fore;
use crate::frames::check_frames;
use crate::occasion::Occasion;
use crate::zones::check_zones;
use book::{Basic, Limits};
use kinds::Judged;

// Every limit in the order of the verdicts, up to the first that is broken.
pub(crate) fn check_all<J: Judged>(
    basic: &Basic,
    deck: &Deck<'_, J>,
    limits: &Limits<'_>,
    occasion: Occasion,
) -> Result<(), Breach>
    ensures { Sound J.Kind deck.now → basic_refusal basic.now ≡ None → zone_refusal (length deck.now.stations.now) limits.now.zones.now ≡ None → result ≡ answer (first_breach occasion basic.now deck.now.stations.now limits.now.zones.now limits.now.frames.now (polygon limits.now.envelope.now)) tt }
{
    let house = deck.whole();
    check_floors(&house)?;
    check_fore(&house, deck.stations)?;
    check_aft(&house, deck.stations)?;
    check_zones(limits.zones, deck)?;
    check_frames(limits.frames, deck)?;
    check_closing(occasion, basic, &house, limits.envelope)
}
