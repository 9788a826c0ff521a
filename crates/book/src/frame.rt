ghost use Rattle.std.specs.Prelude.{◌≡◌, ◌≤◌, length};
ghost use Rattle.book.specs.Fields.{frame_in};
ghost use Rattle.book.specs.Refusals.{answer, frame_refusal, NamesFirst};

use crate::fault::BookFault;
use crate::ranges::arm_in;
use crate::rule::check_each;

// From which side the deck bends a frame.
#[derive(Clone, Copy, Debug, PartialEq, Eq)]
pub enum Side {
    Fore,
    Aft,
}

// A cross-section at an arm, and the bending in kilogram-centimetres that it bears from one side.
#[derive(Clone, Copy, Debug, PartialEq, Eq)]
pub struct Frame {
    pub arm: i32,
    pub side: Side,
    pub limit: u64,
}

impl Frame {
    // Whether its arm and its limit lie in their limits.
    fn in_limits(&self) -> bool
        ensures { result ≡ frame_in self.now }
    {
        arm_in(self.arm) && self.limit <= 1_000_000_000_000
    }
}

// At most 32 frames with their fields in limits, or the first whose are not is named.
pub fn check_frames(frames: &[Frame]) -> Result<(), BookFault>
    ensures value { result ≡ answer (frame_refusal frames.now) tt }
    ensures first { length frames.now ≤ 32 → NamesFirst frame_in frames.now }
{
    if frames.len() > 32 {
        return Err(BookFault::FrameCount);
    }
    check_each(frames, Frame::in_limits, |frame| {
        BookFault::FrameField { frame }
    })
}
