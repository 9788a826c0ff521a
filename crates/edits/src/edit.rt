ghost use Rattle.std.specs.Prelude.{◌≡◌, ◌+◌, nat_le};
ghost use Rattle.book.specs.Refusals.{answer};
ghost use Rattle.edits.specs.Edits.{loading, unloading, shifting, of_named, absent, kilograms_refusal, same_refusal, holds_less, exceeds, edit_refusal, station_at};

use crate::fault::SheetFault;
use book::Station;

// Kilograms that are taken off a station, put onto one, or both: an unload, a load, a shift.
#[derive(Clone, Copy, Debug, PartialEq, Eq)]
pub struct Edit {
    pub off: Option<usize>,
    pub onto: Option<usize>,
    pub kg: u32,
}

impl Edit {
    // Puts kilograms onto a station.
    pub fn load(station: usize, kg: u32) -> Edit
        ensures { result ≡ loading station kg }
    {
        Edit {
            off: None,
            onto: Some(station),
            kg,
        }
    }

    // Takes kilograms off a station.
    pub fn unload(station: usize, kg: u32) -> Edit
        ensures { result ≡ unloading station kg }
    {
        Edit {
            off: Some(station),
            onto: None,
            kg,
        }
    }

    // Takes kilograms off one station and puts them onto another.
    pub fn shift(from: usize, to: usize, kg: u32) -> Edit
        ensures { result ≡ shifting from to kg }
    {
        Edit {
            off: Some(from),
            onto: Some(to),
            kg,
        }
    }
}

// A station that is named stands on the deck.
fn check_there(stations: &[Station], named: Option<usize>) -> Result<(), SheetFault>
    ensures { result ≡ answer (of_named named (absent stations.now)) tt }
{
    named
        .filter(|k| *k >= stations.len())
        .map_or(Ok(()), |station| Err(SheetFault::NoStation { station }))
}

// An edit moves 1 to 30,000 kilograms.
fn check_kilograms(kg: u32) -> Result<(), SheetFault>
    ensures { result ≡ answer (kilograms_refusal kg) tt }
{
    if (1..=30_000).contains(&kg) {
        Ok(())
    } else {
        Err(SheetFault::BadKilograms)
    }
}

// A shift goes to another station than its own.
fn check_apart(off: Option<usize>, onto: Option<usize>) -> Result<(), SheetFault>
    ensures { result ≡ answer (same_refusal off onto) tt }
{
    onto.filter(|k| off == Some(*k))
        .map_or(Ok(()), |station| Err(SheetFault::SameStation { station }))
}

// The mass at a station; none past the last one.
pub fn mass_at(stations: &[Station], k: usize) -> u32
    ensures { result ≡ (station_at stations.now k).mass }
{
    stations.get(k).map_or(0, |station| station.mass)
}

// A station that is taken from holds as much.
fn check_holds(stations: &[Station], off: Option<usize>, kg: u32) -> Result<(), SheetFault>
    ensures { result ≡ answer (of_named off (holds_less stations.now kg)) tt }
{
    off.filter(|k| mass_at(stations, *k) < kg)
        .map_or(Ok(()), |station| Err(SheetFault::HoldsLess { station }))
}

// Whether a station may hold so much more.
fn bears(mass: u32, kg: u32) -> bool
    ensures { result ≡ nat_le (mass + kg) 30000 }
{
    u64::from(mass) + u64::from(kg) <= 30_000
}

// A station that is put onto may hold as much.
fn check_bears(stations: &[Station], onto: Option<usize>, kg: u32) -> Result<(), SheetFault>
    ensures { result ≡ answer (of_named onto (exceeds stations.now kg)) tt }
{
    onto.filter(|k| !bears(mass_at(stations, *k), kg))
        .map_or(Ok(()), |station| Err(SheetFault::TooHeavy { station }))
}

// Why an edit is refused, first.
pub(crate) fn check_edit(stations: &[Station], edit: &Edit) -> Result<(), SheetFault>
    ensures { result ≡ answer (edit_refusal stations.now edit.now) tt }
{
    check_there(stations, edit.off)?;
    check_there(stations, edit.onto)?;
    check_kilograms(edit.kg)?;
    check_apart(edit.off, edit.onto)?;
    check_holds(stations, edit.off, edit.kg)?;
    check_bears(stations, edit.onto, edit.kg)
}
