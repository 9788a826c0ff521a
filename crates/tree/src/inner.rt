ghost use Rattle.std.specs.Prelude.{◌≡◌, ℕ, ◌+◌, ◌*◌, ◌/◌, ◌<◌, ◌≤◌, List, length, slice_index_or};
ghost use Rattle.book.specs.declared.station.Station.{Station};
ghost use Rattle.tree.specs.Trees.{Above};
ghost use Rattle.tree.specs.Under.{Over, RightBeside, Whole};

use crate::joins::children_joined;
use kinds::Kind;

// The node above a node.
fn parent(i: usize) -> usize
    ensures { result ≡ i / 2 }
{
    i / 2
}

// Joins every inner node anew, from the last to node 1. A deck has at most 256 stations: one comparison, which a name
// would only hide.
pub(crate) fn join_inner<K: Kind>(nodes: &mut [K])
    ensures first { (d : K) → slice_index_or nodes.new 0 d ≡ slice_index_or nodes.old 0 d }
    ensures whole { (ss : List Station) → length ss ≤ 256 → ((k : ℕ) (d : K) → k < length nodes.old / 2 → Over K.Kind (slice_index_or nodes.old (length nodes.old / 2 + k) d) k 1 ss) → Whole K.Kind nodes.new (length nodes.old / 2) ss }
{
    let w = nodes.len() / 2;
    // By number: a node is joined from the two nodes at twice its number.
    for i in (1..w).rev() {
        nodes[i] = children_joined(nodes, i);
    }
}

// Joins every node above a node anew, up to node 1.
pub(crate) fn renew_above<K: Kind>(nodes: &mut [K], at: usize)
    requires { 2 * (at / 2) + 1 < length nodes.old }
    ensures beside { (i : ℕ) (d : K) → (Above i (at / 2) → ⊥) → slice_index_or nodes.new i d ≡ slice_index_or nodes.old i d }
    ensures whole { (w : ℕ) (ss : List Station) → length nodes.old ≡ 2 * w → length ss ≤ 256 → RightBeside K.Kind (at / 2) nodes.old w ss → Whole K.Kind nodes.new w ss }
{
    // The next node is half the number: `successors` leaves the loop's invariant unproved at its first turn.
    let mut i = parent(at);
    while i > 0 {
        nodes[i] = children_joined(nodes, i);
        i = parent(i);
    }
}
