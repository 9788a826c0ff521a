ghost use Rattle.std.specs.Prelude.{◌-◌, ◌/◌, ◌<◌, ◌≤◌, List, length};
ghost use Rattle.book.specs.declared.station.Station.{Station};
ghost use Rattle.tree.specs.Under.{Over, Whole};

use crate::joins::{onto_aft, onto_fore};
use kinds::Kind;

// The stations from `from` up to `to` - 1, by the fewest nodes that hold them: from both ends up the tree, the
// forward part grows aft and the aft part grows forward until they meet.
pub(crate) fn span<K: Kind>(nodes: &[K], from: usize, to: usize) -> K
    requires from_le_to { from ≤ to }
    requires to_in_bounds { to ≤ length nodes.now / 2 }
    ensures { (ss : List Station) → length ss ≤ 256 → Whole K.Kind nodes.now (length nodes.now / 2) ss → Over K.Kind result from (to - from) ss }
{
    let w = nodes.len() / 2;
    let mut fore = K::empty();
    let mut aft = K::empty();
    // Both ends climb at once, by half their numbers, and what each turn joins depends on them: no range runs so.
    let mut l = w + from;
    let mut r = w + to;
    while l < r {
        if l % 2 == 1 {
            fore = onto_fore(fore, nodes, l);
            l += 1;
        }
        if r % 2 == 1 {
            r -= 1;
            aft = onto_aft(nodes, r, aft);
        }
        l /= 2;
        r /= 2;
    }
    fore.join(aft)
}
