ghost use Rattle.std.specs.Prelude.{◌≡◌};
ghost use Rattle.std.specs.Option.{option_map, unwrap_or};
ghost use Rattle.std.specs.Result.{result_err};
ghost use Rattle.judging.specs.Breaches.{verdict};

// A broken limit, and the station, zone or frame where it is broken.
#[derive(Clone, Copy, Debug, PartialEq, Eq)]
pub(crate) enum Breach {
    // More stands on the station than its floor bears.
    OverFloor { station: usize },
    // The masses up to the station are more than its fore limit.
    PastFore { station: usize },
    // The masses from the station on are more than its aft limit.
    PastAft { station: usize },
    // The zone carries more than its limit.
    OverZone { zone: usize },
    // The frame is bent more than it bears.
    OverFrame { frame: usize },
    // Mass and moment lie outside the envelope.
    OutOfTrim,
    // The aircraft tips on its tail.
    OnItsTail,
}

// The verdict code and the place: a judgement answers these two numbers.
impl From<Breach> for (u8, usize) {
    ghost from_gives = { λ breach r. r ≡ verdict breach };

    fn from(breach: Breach) -> (u8, usize) {
        match breach {
            Breach::OverFloor { station } => (1, station),
            Breach::PastFore { station } => (2, station),
            Breach::PastAft { station } => (3, station),
            Breach::OverZone { zone } => (4, zone),
            Breach::OverFrame { frame } => (5, frame),
            Breach::OutOfTrim => (6, 0),
            Breach::OnItsTail => (7, 0),
        }
    }
}

// The verdict of a deck that was checked: 0 at 0 where no limit is broken.
pub(crate) fn verdict_of(checked: Result<(), Breach>) -> (u8, usize)
    ensures { result ≡ unwrap_or (option_map verdict (result_err checked)) (0, 0) }
{
    checked.err().map_or((0, 0), <(u8, usize)>::from)
}
