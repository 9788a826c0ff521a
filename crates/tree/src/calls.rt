ghost use Rattle.std.specs.Prelude.{◌≡◌};
ghost use Rattle.std.specs.Result.{result_err};
ghost use Rattle.tree.specs.Calls.{memory_refusal, station_refusal, range_refusal, Filled, Renewed, Ranged, Found};

use crate::descent::descend;
use crate::inner::{join_inner, renew_above};
use crate::leaves::{station_leaf, write_leaves};
use crate::misfit::Misfit;
use crate::spans::span;
use crate::widths::fits;
use book::Station;
use kinds::{Kind, Test};

// Station and node memory are the caller's: two slices, lent with every call.

// Refuses a node memory that is not this deck's.
fn check_memory(stations: usize, nodes: usize) -> Result<(), Misfit>
    ensures { result_err result ≡ memory_refusal stations nodes }
{
    if fits(stations, nodes) {
        Ok(())
    } else {
        Err(Misfit::OtherLength)
    }
}

// Refuses a station that is not on the deck.
fn check_station(stations: usize, nodes: usize, k: usize) -> Result<(), Misfit>
    ensures { result_err result ≡ station_refusal stations nodes k }
{
    check_memory(stations, nodes)?;
    if k < stations {
        Ok(())
    } else {
        Err(Misfit::NoStation)
    }
}

// Refuses a range that is empty or ends past the last station.
fn check_range(stations: usize, nodes: usize, from: usize, to: usize) -> Result<(), Misfit>
    ensures { result_err result ≡ range_refusal stations nodes from to }
{
    check_memory(stations, nodes)?;
    if from < to && to <= stations {
        Ok(())
    } else {
        Err(Misfit::NoRange)
    }
}

// Writes the leaves, and then joins the inner nodes.
pub(crate) fn filled<K: Kind>(nodes: &mut [K], stations: &[Station]) -> Result<(), Misfit>
    ensures { Filled K.Kind nodes.old nodes.new stations.now result }
{
    check_memory(stations.len(), nodes.len())?;
    let w = nodes.len() / 2;
    write_leaves(&mut nodes[w..], stations);
    join_inner(nodes);
    Ok(())
}

// Writes one leaf anew, and joins the nodes above it.
pub(crate) fn renewed<K: Kind>(
    nodes: &mut [K],
    stations: &[Station],
    k: usize,
) -> Result<(), Misfit>
    ensures { Renewed K.Kind nodes.old nodes.new stations.now k result }
{
    check_station(stations.len(), nodes.len(), k)?;
    let leaf = nodes.len() / 2 + k;
    nodes[leaf] = station_leaf(stations, k);
    renew_above(nodes, leaf);
    Ok(())
}

// Joins a range's stations.
pub(crate) fn ranged<K: Kind>(
    nodes: &[K],
    stations: usize,
    from: usize,
    to: usize,
) -> Result<K, Misfit>
    ensures { Ranged K.Kind nodes.now stations from to result }
{
    check_range(stations, nodes.len(), from, to)?;
    Ok(span(nodes, from, to))
}

// Looks for the first station that meets a test.
pub(crate) fn found<T: Test>(
    test: &T,
    nodes: &[T::Of],
    stations: usize,
) -> Result<Option<usize>, Misfit>
    ensures { Found T.Of.Kind (T.Test.meets test.now) nodes.now stations result }
{
    check_memory(stations, nodes.len())?;
    Ok(descend(test, nodes))
}
