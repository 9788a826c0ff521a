ghost use Rattle.std.specs.Prelude.{◌≡◌};
ghost use Rattle.book.specs.Fields.{Lawful};
ghost use Rattle.kinds.specs.Houses.{no_house, one_house, both_houses, held_houses, Sound};
ghost use Rattle.kinds.specs.Laws.{house_right, house_assoc};
ghost use Rattle.std.proofs.Common.{rules};

use crate::floor_record::FloorRecord;
use crate::kind::Kind;
use crate::mass_moment::MassMoment;
use crate::running_load::RunningLoad;
use crate::{mass_moment, running_load};
use book::Station;

// The house summary: one of each.
#[derive(Clone, Copy, Debug, Default, PartialEq, Eq)]
pub struct House {
    pub moments: MassMoment,
    pub load: RunningLoad,
    pub floors: FloorRecord,
}

// Each part joined by its own rule, whatever the two stand for.
fn both(fore: House, aft: House) -> House
    ensures { result ≡ held_houses fore aft }
{
    House {
        moments: mass_moment::both(fore.moments, aft.moments),
        load: running_load::both(fore.load, aft.load),
        floors: fore.floors.join(aft.floors),
    }
}

impl Kind for House {
    type Reading = House;

    ghost reading = { λ v. v };

    ghost none = { no_house };

    ghost single = { one_house };

    ghost joined = { both_houses };

    ghost stands = { Sound };

    ghost left = { Prim.search rules };

    ghost right = { λ x. house_right x };

    ghost assoc = { λ x y z. house_assoc x y z };

    fn empty() -> House {
        House::default()
    }

    // One station's summary, whatever its record holds.
    fn station(number: usize, given: &Station) -> House
        ensures says { result ≡ one_house number given.now }
        ensures stands { Lawful given.now → Sound result 1 }
    {
        House {
            moments: MassMoment::station(number, given),
            load: RunningLoad::station(number, given),
            floors: FloorRecord::station(number, given),
        }
    }

    fn join(self, aft: House) -> House {
        both(self, aft)
    }
}
