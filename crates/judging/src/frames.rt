ghost use Rattle.std.specs.Prelude.{◌≡◌};
ghost use Rattle.book.specs.Refusals.{answer, first_failing};
ghost use Rattle.tree.specs.Trees.{SegmentTree};
ghost use Rattle.judging.specs.Bending.{frame_kept};
ghost use Rattle.judging.specs.Breaches.{frame_breach};
ghost use Rattle.judging.specs.Steps.{load_of, on_side};

use crate::bending::bears;
use crate::breach::Breach;
use crate::deck::Deck;
use crate::firsts::first_failing;
use crate::sides::{aft_begins, ahead_ends};
use book::{Frame, Side};
use kinds::{Judged, MassMoment};

// Mass and moment of the stations on the frame's side.
fn side_load<J: Judged>(frame: &Frame, deck: &Deck<'_, J>) -> MassMoment
    ensures { SegmentTree J.Kind deck.now.nodes.now deck.now.stations.now → result ≡ load_of (on_side frame.now.side frame.now.arm deck.now.stations.now) }
{
    let stations = deck.stations;
    match frame.side {
        Side::Fore => deck.part(0, ahead_ends(stations, frame)).moments,
        Side::Aft => deck
            .part(aft_begins(stations, frame), stations.len())
            .moments,
    }
}

// Whether the frame bears how its stations bend it.
fn keeps<J: Judged>(frame: &Frame, deck: &Deck<'_, J>) -> bool
    ensures { SegmentTree J.Kind deck.now.nodes.now deck.now.stations.now → result ≡ frame_kept deck.now.stations.now frame.now }
{
    bears(frame, &side_load(frame, deck))
}

// The first frame that does not.
fn first_over<J: Judged>(frames: &[Frame], deck: &Deck<'_, J>) -> Option<usize>
    ensures { SegmentTree J.Kind deck.now.nodes.now deck.now.stations.now → result ≡ first_failing (frame_kept deck.now.stations.now) 0 frames.now }
{
    first_failing(frames, |frame| keeps(frame, deck))
}

// Verdict 5: every frame bears its bending, or the first that does not.
pub(crate) fn check_frames<J: Judged>(frames: &[Frame], deck: &Deck<'_, J>) -> Result<(), Breach>
    ensures { SegmentTree J.Kind deck.now.nodes.now deck.now.stations.now → result ≡ answer (frame_breach deck.now.stations.now frames.now) tt }
{
    first_over(frames, deck).map_or(Ok(()), |frame| Err(Breach::OverFrame { frame }))
}
