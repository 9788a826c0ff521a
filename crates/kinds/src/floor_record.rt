ghost use Rattle.std.specs.Prelude.{◌≡◌};
ghost use Rattle.kinds.specs.Floors.{no_floor, one_floor, both_floors};
ghost use Rattle.std.proofs.Common.{rules};

use crate::kind::Kind;
use book::Station;

// A station over its floor limit, and by how much.
#[derive(Clone, Copy, Debug, PartialEq, Eq)]
pub struct Over {
    pub station: usize,
    pub excess: u32,
}

// The first station over its floor limit, if there is one.
#[derive(Clone, Copy, Debug, Default, PartialEq, Eq)]
pub struct FloorRecord {
    pub first: Option<Over>,
}

impl Kind for FloorRecord {
    type Reading = FloorRecord;

    ghost reading = { λ v. v };

    ghost none = { no_floor };

    ghost single = { one_floor };

    ghost joined = { both_floors };

    ghost stands = { λ _ _. Unit {0} };

    ghost left = { Prim.search rules };

    ghost right = { Prim.search rules };

    ghost assoc = { Prim.search rules };

    fn empty() -> FloorRecord {
        FloorRecord::default()
    }

    // A station is over where its mass is above its floor limit, whatever its record holds.
    fn station(number: usize, given: &Station) -> FloorRecord
        ensures { result ≡ one_floor number given.now }
    {
        FloorRecord {
            first: (given.mass > given.floor).then(|| Over {
                station: number,
                excess: given.mass - given.floor,
            }),
        }
    }

    // The forward half's, if it has one.
    fn join(self, aft: FloorRecord) -> FloorRecord {
        FloorRecord {
            first: self.first.or(aft.first),
        }
    }
}
