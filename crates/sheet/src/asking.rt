// What a sheet is asked in whichever state it is.
ghost use Rattle.sheet.specs.Calls.{Summed, Searched};

use crate::inspect::Inspect;
use book::Station;
use edits::{SheetFault, check_memory};
use kinds::{Kind, Test};
use tree::{first, range};

// The stations of a range joined nose to tail.
pub(crate) fn range_of<S: Inspect, K: Kind>(
    sheet: &S,
    stations: &[Station],
    nodes: &[K],
    from: usize,
    to: usize,
) -> Result<K, SheetFault>
    ensures { Summed K.Kind (S.carried sheet.now) S.state stations.now nodes.now from to result }
{
    let n = sheet.numbers().n;
    check_memory(n, stations.len(), nodes.len())?;
    range(nodes, n, from, to).map_err(|_| SheetFault::NoRange)
}

// The first station at which a test is met.
pub(crate) fn first_of<S: Inspect, T: Test>(
    sheet: &S,
    stations: &[Station],
    nodes: &[T::Of],
    test: &T,
) -> Result<Option<usize>, SheetFault>
    ensures { Searched T.Of.Kind T.Test.meets (S.carried sheet.now) S.state stations.now nodes.now test.now result }
{
    let n = sheet.numbers().n;
    check_memory(n, stations.len(), nodes.len())?;
    first(test, nodes, n).map_err(|_| SheetFault::OtherLength)
}
