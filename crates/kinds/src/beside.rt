ghost use Rattle.std.specs.Prelude.{◌≡◌, ℕ, ◌+◌, ◌≤◌};
ghost use Rattle.std.proofs.Common.{rules};

use crate::kind::Kind;
use book::Station;

// Two kinds side by side, each by its own rule.
#[derive(Clone, Copy, Debug, PartialEq, Eq)]
pub struct Beside<X, Y> {
    pub one: X,
    pub other: Y,
}

// Two values of one kind joined, the forward one first. By itself, with a promise of its own: a wrong joining is
// refused here, and not in the proof of `join`.
fn joined<K: Kind>(fore: K, aft: K) -> K
    ensures { (j k : ℕ) → K.Kind.stands fore j → K.Kind.stands aft k → j + k ≤ 256 → (K.Kind.reading result ≡ K.Kind.joined (K.Kind.reading fore) (K.Kind.reading aft)) × K.Kind.stands result (j + k) }
{
    fore.join(aft)
}

impl<X: Kind, Y: Kind> Kind for Beside<X, Y> {
    type Reading = (X::Reading, Y::Reading);

    ghost reading = { λ v. (X.Kind.reading v.one, Y.Kind.reading v.other) };

    ghost none = { (X.Kind.none, Y.Kind.none) };

    ghost single = { λ n s. (X.Kind.single n s, Y.Kind.single n s) };

    ghost joined = { λ a b. (X.Kind.joined a.0 b.0, Y.Kind.joined a.1 b.1) };

    ghost stands = { λ v k. X.Kind.stands v.one k × Y.Kind.stands v.other k };

    ghost left = { Prim.search rules };

    ghost right = { Prim.search rules };

    ghost assoc = { Prim.search rules };

    fn empty() -> Beside<X, Y> {
        Beside {
            one: X::empty(),
            other: Y::empty(),
        }
    }

    fn station(number: usize, given: &Station) -> Beside<X, Y> {
        Beside {
            one: X::station(number, given),
            other: Y::station(number, given),
        }
    }

    fn join(self, aft: Beside<X, Y>) -> Beside<X, Y> {
        Beside {
            one: joined(self.one, aft.one),
            other: joined(self.other, aft.other),
        }
    }
}
