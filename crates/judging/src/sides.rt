ghost use Rattle.std.specs.Prelude.{◌≡◌, ◌-◌, length, int_lt};
ghost use Rattle.judging.specs.Steps.{count_ahead, count_aft};

use book::{Frame, Station};

// Whether a station stands ahead of a frame.
fn is_ahead(station: &Station, frame: &Frame) -> bool
    ensures { result ≡ int_lt station.now.arm frame.now.arm }
{
    station.arm < frame.arm
}

// Whether it stands aft of it.
fn is_aft(station: &Station, frame: &Frame) -> bool
    ensures { result ≡ int_lt frame.now.arm station.now.arm }
{
    frame.arm < station.arm
}

// Where the stations ahead of the frame end, looked for from the nose.
pub(crate) fn ahead_ends(stations: &[Station], frame: &Frame) -> usize
    ensures { result ≡ count_ahead frame.now stations.now }
{
    stations
        .iter()
        .take_while(|station| is_ahead(station, frame))
        .count()
}

// Where the stations aft of the frame begin, looked for from the tail.
pub(crate) fn aft_begins(stations: &[Station], frame: &Frame) -> usize
    ensures { result ≡ length stations.now - count_aft frame.now stations.now }
{
    let aft = stations
        .iter()
        .rev()
        .take_while(|station| is_aft(station, frame))
        .count();
    stations.len() - aft
}
