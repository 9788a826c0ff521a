ghost use Rattle.tree.specs.Calls.{Filled, Renewed, Ranged, Found};

use crate::calls::{filled, found, ranged, renewed};
use crate::misfit::Misfit;
use book::Station;
use kinds::{Kind, Test};

// The proof of each call stands at its inner function. The promise stands here again, so that wrong work is refused
// at a clause and not in that proof.

// Writes the tree of the stations, whatever the nodes were before. Node 0 is never written.
pub fn fill<K: Kind>(nodes: &mut [K], stations: &[Station]) -> Result<(), Misfit>
    ensures { Filled K.Kind nodes.old nodes.new stations.now result }
{
    filled(nodes, stations)
}

// After the record of station `k` changed: its leaf and every node above it, up to node 1.
pub fn renew<K: Kind>(nodes: &mut [K], stations: &[Station], k: usize) -> Result<(), Misfit>
    ensures { Renewed K.Kind nodes.old nodes.new stations.now k result }
{
    renewed(nodes, stations, k)
}

// The stations from `from` up to `to` - 1 of a deck of so many, joined nose to tail.
pub fn range<K: Kind>(nodes: &[K], stations: usize, from: usize, to: usize) -> Result<K, Misfit>
    ensures { Ranged K.Kind nodes.now stations from to result }
{
    ranged(nodes, stations, from, to)
}

// The least station that, joined with all before it, meets the test, or none.
pub fn first<T: Test>(test: &T, nodes: &[T::Of], stations: usize) -> Result<Option<usize>, Misfit>
    ensures { Found T.Of.Kind (T.Test.meets test.now) nodes.now stations result }
{
    found(test, nodes, stations)
}
