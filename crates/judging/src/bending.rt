ghost use Rattle.std.specs.Prelude.{◌≡◌, ◌^◌, ◌*ℤ◌};
ghost use Rattle.book.specs.Spans.{Span};
ghost use Rattle.judging.specs.Steps.{bent, frame_bears};

use book::{Frame, Side};
use kinds::MassMoment;

// A load's mass at the frame's arm, as a moment. Neither can be so large that the product leaves its type.
fn at_frame(frame: &Frame, load: &MassMoment) -> i128
    ensures value { result ≡ frame.now.arm *ℤ load.now.mass }
    ensures small { Span result (2 ^ 94) }
{
    i128::from(frame.arm) * i128::from(load.mass)
}

// How a load on the frame's side bends it.
fn bending(frame: &Frame, load: &MassMoment) -> i128
    ensures { result ≡ bent frame.now.side frame.now.arm load.now }
{
    match frame.side {
        Side::Fore => at_frame(frame, load) - i128::from(load.moment),
        Side::Aft => i128::from(load.moment) - at_frame(frame, load),
    }
}

// Whether the frame bears that.
pub(crate) fn bears(frame: &Frame, load: &MassMoment) -> bool
    ensures { result ≡ frame_bears frame.now load.now }
{
    bending(frame, load) <= i128::from(frame.limit)
}
