// What the limits of a book say of its totals.
ghost use Rattle.std.specs.Prelude.{◌≡◌, vec_items};
ghost use Rattle.book.specs.Envelopes.{polygon_in};
ghost use Rattle.book.specs.Refusals.{answer};
ghost use Rattle.listing.specs.Judged.{judging_refusal, kept_at};

use crate::book_text::BookText;
use crate::lists::Lists;
use book::{BookFault, Envelope, Limits, Totals};
use std::fmt;

// Whether the trim envelope and the tip line are kept: two answers, neither of which depends on the other.
#[derive(Clone, Copy)]
pub struct Kept {
    trim: bool,
    tip: bool,
}

impl Kept {
    // The envelope is made first, and then the zones and the frames are checked; the first fault ends it.
    pub fn by(book: &BookText, totals: Totals) -> Result<Kept, BookFault>
        ensures { result ≡ answer (judging_refusal book.now.lists) (kept_at book.now totals) }
    {
        let envelope = sound_envelope(&book.lists)?;
        Ok(Kept {
            trim: envelope.inside(totals.mass, totals.moment),
            tip: book.basic.keeps_tip(totals),
        })
    }
}

// The envelope of a book whose zones and frames keep their rules too.
fn sound_envelope(lists: &Lists) -> Result<Envelope, BookFault>
    ensures { polygon_in result ≡ answer (judging_refusal lists.now) (vec_items lists.now.vertices) }
{
    let envelope = Envelope::new(lists.vertices.as_slice())?;
    let limits = Limits {
        zones: lists.zones.as_slice(),
        frames: lists.frames.as_slice(),
        envelope: &envelope,
    };
    limits.check(lists.stations.len())?;
    Ok(envelope)
}

impl fmt::Display for Kept {
    fn fmt<W: fmt::Write>(&self, f: &mut fmt::Formatter<W>) -> fmt::Result {
        let trim = said(self.trim);
        let tip = said(self.tip);
        write!(f, "trim: {trim}\ntip: {tip}")
    }
}

fn said(kept: bool) -> &'static str {
    if kept { "kept" } else { "not kept" }
}
