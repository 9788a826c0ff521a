ghost use Rattle.std.specs.Prelude.{◌≡◌};
ghost use Rattle.book.specs.Fields.{Lawful};
ghost use Rattle.kinds.specs.Moments.{no_moment, one_moment, both_moments, held_moments, Within};
ghost use Rattle.std.proofs.Math.IntN.{+ℤ_assoc};
ghost use Rattle.std.proofs.Common.{rules};

use crate::kind::Kind;
use book::Station;

// The sum of the masses, and the sum of mass times arm. Not a book's `Totals`: the stations alone, without the basic
// record, so that neither is passed for the other.
#[derive(Clone, Copy, Debug, Default, PartialEq, Eq)]
pub struct MassMoment {
    pub mass: i64,
    pub moment: i64,
}

// Both added up; what would leave 64 bits stays at their end. By itself, since it is said of any two values,
// where `join` promises something only of values that stand for stations.
pub(crate) fn both(fore: MassMoment, aft: MassMoment) -> MassMoment
    ensures { result ≡ held_moments fore aft }
{
    MassMoment {
        mass: fore.mass.saturating_add(aft.mass),
        moment: fore.moment.saturating_add(aft.moment),
    }
}

impl Kind for MassMoment {
    type Reading = MassMoment;

    ghost reading = { λ v. v };

    ghost none = { no_moment };

    ghost single = { λ _ s. one_moment s };

    ghost joined = { both_moments };

    ghost stands = { Within };

    ghost left = { Prim.search rules };

    ghost right = { Prim.search rules };

    ghost assoc = { λ x y z. Prim.simp +ℤ_assoc };

    fn empty() -> MassMoment {
        MassMoment::default()
    }

    // One station's mass and moment, whatever its record holds.
    #[tactic(auto, using(crate::proofs::Parts::moments_single))]
    fn station(_number: usize, given: &Station) -> MassMoment
        ensures says { result ≡ one_moment given.now }
        ensures stands { Lawful given.now → Within result 1 }
    {
        MassMoment {
            mass: i64::from(given.mass),
            moment: given.moment(),
        }
    }

    fn join(self, aft: MassMoment) -> MassMoment {
        both(self, aft)
    }
}
