ghost use Rattle.std.specs.Prelude.{◌≡◌, int_le};

use crate::mass_moment::MassMoment;
use crate::test_of::Test;

// On mass and moment: the mass is at least this.
#[derive(Clone, Copy, Debug, PartialEq, Eq)]
pub struct AtLeast {
    pub mass: i64,
}

impl AtLeast {
    // Whether a summary's mass is at least this. By itself, since it is said of any summary, where `met` promises
    // something only of one that stands for stations.
    fn is_reached(&self, value: MassMoment) -> bool
        ensures { result ≡ int_le self.now.mass value.mass }
    {
        self.mass <= value.mass
    }
}

impl Test for AtLeast {
    type Read = MassMoment;

    type Of = MassMoment;

    ghost meets = { λ t x. int_le t.mass x.mass };

    fn met(&self, value: MassMoment) -> bool {
        self.is_reached(value)
    }
}
