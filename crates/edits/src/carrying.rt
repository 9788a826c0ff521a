ghost use Rattle.std.specs.Prelude.{◌≡◌, ℕ, ◌+◌, ◌-◌, ◌^◌, ◌<◌, length, MatchOption, Result};
ghost use Rattle.std.specs.Option.{option_or};
ghost use Rattle.book.specs.Refusals.{answer};
ghost use Rattle.tree.specs.Calls.{Renewed};
ghost use Rattle.tree.specs.declared.misfit.Misfit.{Misfit};
ghost use Rattle.edits.specs.Carrying.{Put, Moved, Carried};
ghost use Rattle.edits.specs.Edits.{put, station_at, memory_refusal, edit_refusal};

use crate::edit::{Edit, check_edit, mass_at};
use crate::fault::SheetFault;
use crate::memory::check_memory;
use book::Station;
use kinds::Kind;
use tree::renew;

// Station and node memory are the caller's: two slices, lent with every call.

// Another mass in a station's record. Past the last station nothing is written.
fn write_mass(stations: &mut [Station], k: usize, mass: u32)
    ensures { stations.new ≡ put stations.old k mass }
{
    // By index: after `get_mut` or `iter_mut().nth(k)` no proof knows the other records.
    if k < stations.len() {
        stations[k].mass = mass;
    }
}

// The nodes above a station whose record changed, renewed: nothing is done past the last station, nor on another
// sheet's nodes.
fn follow<K: Kind>(stations: &[Station], nodes: &mut [K], k: usize)
    ensures { (r : Result (Unit {0}) Misfit) × Renewed K.Kind nodes.old nodes.new stations.now k r }
{
    let _ = renew(nodes, stations, k);
}

// Puts another mass at a station, and renews the nodes above it. Past the last station nothing is done.
pub fn set_mass<K: Kind>(stations: &mut [Station], nodes: &mut [K], k: usize, mass: u32)
    ensures { Put K.Kind stations.old nodes.old k mass stations.new nodes.new }
{
    write_mass(stations, k, mass);
    follow(stations, nodes, k);
}

// Another mass at a station, if one is named, by what it holds.
fn reweigh<K: Kind, F: FnOnce(u32) -> u32>(
    stations: &mut [Station],
    nodes: &mut [K],
    named: Option<usize>,
    weigh: F,
)
    requires { F.IsAlwaysCallable weigh }
    ensures stations { MatchOption named (stations.new ≡ stations.old) (λ k. (mass : ℕ) × F.post weigh (station_at stations.old k).mass mass × (stations.new ≡ put stations.old k mass)) }
    ensures nodes { Moved K.Kind stations.old nodes.old named stations.new nodes.new }
{
    if let Some(k) = named {
        let mass = weigh(mass_at(stations, k));
        set_mass(stations, nodes, k, mass);
    }
}

// What is left of a mass.
fn less(mass: u32, kg: u32) -> u32
    ensures { result ≡ mass - kg }
{
    mass.saturating_sub(kg)
}

// A mass and more.
fn more(mass: u32, kg: u32) -> u32
    ensures { mass + kg < 2 ^ 32 → result ≡ mass + kg }
{
    mass.saturating_add(kg)
}

// Why an edit on this memory is refused, first.
fn check(n: usize, stations: &[Station], nodes: usize, edit: &Edit) -> Result<(), SheetFault>
    ensures { result ≡ answer (option_or (memory_refusal n (length stations.now) nodes) (edit_refusal stations.now edit.now)) tt }
{
    check_memory(n, stations.len(), nodes)?;
    check_edit(stations, edit)
}

// Carries out an edit on the memory of a sheet of `n` stations, or refuses it and leaves all as it was.
pub fn carry_out<K: Kind>(
    n: usize,
    stations: &mut [Station],
    nodes: &mut [K],
    edit: &Edit,
) -> Result<(), SheetFault>
    ensures { Carried K.Kind n stations.old nodes.old edit.now result stations.new nodes.new }
{
    check(n, stations, nodes.len(), edit)?;
    reweigh(stations, nodes, edit.off, |mass| less(mass, edit.kg));
    reweigh(stations, nodes, edit.onto, |mass| more(mass, edit.kg));
    Ok(())
}
