ghost use Rattle.std.specs.Prelude.{◌≡◌};
ghost use Rattle.book.specs.Refusals.{answer, limits_refusal};

use crate::envelope::Envelope;
use crate::fault::BookFault;
use crate::frame::{Frame, check_frames};
use crate::zone::{Zone, check_zones};

// The limits that are brought with a call, beside those that stand in the station records.
#[derive(Clone, Copy)]
pub struct Limits<'a> {
    pub zones: &'a [Zone],
    pub frames: &'a [Frame],
    pub envelope: &'a Envelope,
}

impl Limits<'_> {
    // Zones first, then frames, on a deck of so many stations.
    pub fn check(&self, stations: usize) -> Result<(), BookFault>
        ensures { result ≡ answer (limits_refusal stations self.now.zones.now self.now.frames.now) tt }
    {
        check_zones(self.zones, stations)?;
        check_frames(self.frames)
    }
}
