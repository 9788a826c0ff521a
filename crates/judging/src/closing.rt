ghost use Rattle.std.specs.Prelude.{◌≡◌, List, None};
ghost use Rattle.book.specs.declared.station.Station.{Station};
ghost use Rattle.book.specs.Refusals.{answer, basic_refusal};
ghost use Rattle.book.specs.Sums.{totals_of};
ghost use Rattle.book.specs.Envelopes.{polygon};
ghost use Rattle.book.specs.Polygons.{within};
ghost use Rattle.judging.specs.Breaches.{closing_breach};
ghost use Rattle.judging.specs.Decks.{Whole};
ghost use Rattle.judging.specs.Judgement.{point};
ghost use Rattle.judging.specs.Steps.{held_totals};

use crate::breach::Breach;
use crate::occasion::Occasion;
use book::{Basic, Envelope, Totals};
use kinds::{House, MassMoment};

// The basic record's mass and moment with the deck's; what would leave 64 bits stays at their end.
fn with_deck(basic: &Basic, deck: &MassMoment) -> Totals
    ensures { result ≡ held_totals basic.now deck.now }
{
    Totals {
        mass: i64::from(basic.mass).saturating_add(deck.mass),
        moment: basic.moment.saturating_add(deck.moment),
    }
}

// The totals by the deck's summary.
fn totals(basic: &Basic, house: &House) -> Totals
    ensures { (ss : List Station) → Whole ss house.now → basic_refusal basic.now ≡ None → result ≡ totals_of basic.now ss }
{
    with_deck(basic, &house.moments)
}

// Whether the envelope holds these totals.
fn in_trim(envelope: &Envelope, totals: &Totals) -> bool
    ensures { result ≡ within (polygon envelope.now) (point totals.now) }
{
    envelope.inside(totals.mass, totals.moment)
}

// Trim on a standing deck, tip in a stage.
fn closes(
    occasion: Occasion,
    basic: &Basic,
    totals: Totals,
    envelope: &Envelope,
) -> Result<(), Breach>
    ensures { result ≡ answer (closing_breach occasion basic.now totals (polygon envelope.now)) tt }
{
    match occasion {
        Occasion::Standing if !in_trim(envelope, &totals) => Err(Breach::OutOfTrim),
        Occasion::Stage if !basic.keeps_tip(totals) => Err(Breach::OnItsTail),
        _ => Ok(()),
    }
}

// Verdict 6 or 7: that of the totals by the deck's summary.
pub(crate) fn check_closing(
    occasion: Occasion,
    basic: &Basic,
    house: &House,
    envelope: &Envelope,
) -> Result<(), Breach>
    ensures { (ss : List Station) → Whole ss house.now → basic_refusal basic.now ≡ None → result ≡ answer (closing_breach occasion basic.now (totals_of basic.now ss) (polygon envelope.now)) tt }
{
    closes(occasion, basic, totals(basic, house), envelope)
}
