ghost use Rattle.std.specs.Prelude.{ℕ, ◌<◌, length, slice_index_or};
ghost use Rattle.kinds.specs.Folds.{OnDeck};
ghost use Rattle.tree.specs.Under.{Over, StationLeaf, EmptyLeaf};

use book::Station;
use kinds::Kind;

// The leaf of a station of the deck, by its number and record.
pub(crate) fn station_leaf<K: Kind>(stations: &[Station], k: usize) -> K
    requires { k < length stations.now }
    ensures { StationLeaf K.Kind stations.now k result }
{
    K::station(k, &stations[k])
}

// A leaf past the last station reads as empty: a station with limits of 0 would break every deck.
fn padding<K: Kind>() -> K
    ensures { EmptyLeaf K.Kind result }
{
    K::empty()
}

// The leaf of a place on the deck: the station there, or empty past the last one.
fn leaf_at<K: Kind>(stations: &[Station], k: usize) -> K
    ensures { OnDeck stations.now (Over K.Kind result k 1 stations.now) }
{
    if k < stations.len() {
        station_leaf(stations, k)
    } else {
        padding()
    }
}

// Writes all leaves: the part of the node memory that is lent here begins at the tree's width.
pub(crate) fn write_leaves<K: Kind>(leaves: &mut [K], stations: &[Station])
    ensures { OnDeck stations.now ((k : ℕ) (d : K) → k < length leaves.new → Over K.Kind (slice_index_or leaves.new k d) k 1 stations.now) }
{
    for (k, leaf) in leaves.iter_mut().enumerate() {
        *leaf = leaf_at(stations, k);
    }
}
