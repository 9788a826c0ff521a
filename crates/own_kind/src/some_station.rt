ghost use Rattle.own_kind.specs.Heavies.{holds};

use crate::heaviest::Heaviest;
use kinds::Test;

// That some station carries at least this.
#[derive(Clone, Copy, Debug, PartialEq, Eq)]
pub struct SomeStation {
    pub kg: u32,
}

impl Test for SomeStation {
    type Read = Heaviest;

    type Of = Heaviest;

    ghost meets = { λ t x. holds t.kg x.at };

    fn met(&self, value: Heaviest) -> bool {
        value.at.is_some_and(|heavy| self.kg <= heavy.mass)
    }
}
