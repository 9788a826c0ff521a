ghost use Rattle.std.specs.Prelude.{◌≡◌, ◌<◌, ◌≤◌, not, ◌&&◌, ◌==◌, length, nat_lt, List, MatchResult};
ghost use Rattle.book.specs.declared.station.Station.{Station as Record};
ghost use Rattle.edits.specs.Carrying.{Put};
ghost use Rattle.edits.specs.Edits.{station_at};
ghost use Rattle.edits.specs.declared.fault.SheetFault.TheVariants.{OtherLength as Other};
ghost use Rattle.stages.specs.Steps.{masses, TakenBack};

use arrayvec::ArrayVec;
use book::Station;
use edits::{SheetFault, set_mass};
use kinds::Kind;

// The masses aboard. More than 256 stations are no deck.
pub(crate) fn masses_aboard(stations: &[Station]) -> Result<ArrayVec<u32, 256>, SheetFault>
    ensures { MatchResult result (λ aboard. (aboard.items ≡ masses stations.now) × (length stations.now ≤ 256)) (λ fault. (fault ≡ Other) × (256 < length stations.now)) }
{
    if stations.len() > 256 {
        return Err(SheetFault::OtherLength);
    }
    // By a loop: `extend` answers whether there was room, which is settled here.
    let mut aboard = ArrayVec::new();
    for station in stations {
        aboard.push(station.mass);
    }
    Ok(aboard)
}

// Puts a mass back at a station that holds another.
fn put_back<K: Kind>(stations: &mut [Station], nodes: &mut [K], k: usize, mass: u32)
    ensures { Put K.Kind stations.old nodes.old k mass stations.new nodes.new }
{
    if stations.get(k).is_some_and(|station| station.mass != mass) {
        set_mass(stations, nodes, k, mass);
    }
}

// Puts every mass back.
pub(crate) fn take_back<K: Kind>(stations: &mut [Station], nodes: &mut [K], aboard: &[u32])
    ensures { (was : List Record) → aboard.now ≡ masses was → TakenBack K.Kind was stations.old nodes.old stations.new nodes.new }
{
    for (k, mass) in aboard.iter().enumerate() {
        put_back(stations, nodes, k, *mass);
    }
}
