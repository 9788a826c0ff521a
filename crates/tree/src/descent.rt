ghost use Rattle.std.specs.Prelude.{◌≡◌, ℕ, ◌*◌, ◌^◌, ◌<◌, ◌≤◌, List, length};
ghost use Rattle.book.specs.declared.station.Station.{Station};
ghost use Rattle.kinds.specs.Folds.{AllLawful};
ghost use Rattle.tree.specs.Calls.{FirstMet};
ghost use Rattle.tree.specs.Under.{Whole};

use crate::joins::onto_fore;
use kinds::{Kind, Test};

// The least station that meets the test with all before it: down from node 1, into the forward child where the
// test is met with it, else past it.
pub(crate) fn descend<T: Test>(test: &T, nodes: &[T::Of]) -> Option<usize>
    ensures { (ss : List Station) (height : ℕ) → 0 < length ss → length ss ≤ 256 → AllLawful ss → length ss ≤ 2 ^ height → length nodes.now ≡ 2 * 2 ^ height → Whole T.Of.Kind nodes.now (2 ^ height) ss → FirstMet T.Of.Kind (T.Test.meets test.now) ss result }
{
    let w = nodes.len() / 2;
    if w == 0 {
        return None;
    }
    if !test.met(nodes[1]) {
        return None;
    }
    let mut before = <T::Of as Kind>::empty();
    // The next node is twice the number, or one more by what the test says: no range runs so.
    let mut i = 1;
    while i < w {
        i = 2 * i;
        let more = onto_fore(before, nodes, i);
        if !test.met(more) {
            before = more;
            i += 1;
        }
    }
    Some(i - w)
}
