ghost use Rattle.std.specs.Prelude.{◌≡◌};
ghost use Rattle.book.specs.Fields.{Lawful};
ghost use Rattle.kinds.specs.Loads.{no_load, one_load, both_loads, held_loads, Bounded};
ghost use Rattle.kinds.specs.Laws.{loads_assoc};
ghost use Rattle.std.proofs.Common.{rules};

use crate::kind::Kind;
use crate::margins::{least, lowered, margin};
use book::Station;

// The total, the least fore margin and the least aft margin of a range.
#[derive(Clone, Copy, Debug, Default, PartialEq, Eq)]
pub struct RunningLoad {
    pub total: i64,
    pub fore: Option<i64>,
    pub aft: Option<i64>,
}

// Each half's total comes off the other half's margin before the margins are compared. By itself, as for
// `MassMoment`: it is said of any two values.
pub(crate) fn both(fore: RunningLoad, aft: RunningLoad) -> RunningLoad
    ensures { result ≡ held_loads fore aft }
{
    RunningLoad {
        total: fore.total.saturating_add(aft.total),
        fore: least(fore.fore, lowered(aft.fore, fore.total)),
        aft: least(lowered(fore.aft, aft.total), aft.aft),
    }
}

impl Kind for RunningLoad {
    type Reading = RunningLoad;

    ghost reading = { λ v. v };

    ghost none = { no_load };

    ghost single = { λ _ s. one_load s };

    ghost joined = { both_loads };

    ghost stands = { Bounded };

    ghost left = { Prim.search rules };

    ghost right = { Prim.search rules };

    ghost assoc = { λ x y z. loads_assoc x y z };

    fn empty() -> RunningLoad {
        RunningLoad::default()
    }

    // One station's load, whatever its record holds.
    #[tactic(auto, using(crate::proofs::Parts::loads_single))]
    fn station(_number: usize, given: &Station) -> RunningLoad
        ensures says { result ≡ one_load given.now }
        ensures stands { Lawful given.now → Bounded result 1 }
    {
        RunningLoad {
            total: i64::from(given.mass),
            fore: margin(given.fore, given.mass),
            aft: margin(given.aft, given.mass),
        }
    }

    fn join(self, aft: RunningLoad) -> RunningLoad {
        both(self, aft)
    }
}
