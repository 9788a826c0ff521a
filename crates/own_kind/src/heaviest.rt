ghost use Rattle.own_kind.specs.Heavies.{no_heaviest, one_heaviest, heavier};
ghost use Rattle.std.proofs.Common.{rules};

use book::Station;
use kinds::Kind;
use std::fmt;

// A station and what stands on it.
#[derive(Clone, Copy, Debug, PartialEq, Eq)]
pub struct Heavy {
    pub station: usize,
    pub mass: u32,
}

// The heaviest station, the first of equals, if there is any station.
#[derive(Clone, Copy, Debug, Default, PartialEq, Eq)]
pub struct Heaviest {
    pub at: Option<Heavy>,
}

impl Kind for Heaviest {
    type Reading = Heaviest;

    ghost reading = { λ v. v };

    ghost none = { no_heaviest };

    ghost single = { one_heaviest };

    ghost joined = { heavier };

    ghost stands = { λ _ _. Unit {0} };

    ghost left = { Prim.search rules };

    ghost right = { Prim.search rules };

    ghost assoc = { Prim.search rules };

    fn empty() -> Heaviest {
        Heaviest::default()
    }

    fn station(number: usize, given: &Station) -> Heaviest {
        let heavy = Heavy {
            station: number,
            mass: given.mass,
        };
        Heaviest { at: Some(heavy) }
    }

    fn join(self, aft: Heaviest) -> Heaviest {
        match (self.at, aft.at) {
            (None, _) => aft,
            (Some(x), Some(y)) if x.mass < y.mass => aft,
            _ => self,
        }
    }
}

impl fmt::Display for Heaviest {
    fn fmt<W: fmt::Write>(&self, f: &mut fmt::Formatter<W>) -> fmt::Result {
        match self.at {
            Some(Heavy { station, mass }) => write!(f, "station {station} with {mass} kg"),
            None => write!(f, "none"),
        }
    }
}
