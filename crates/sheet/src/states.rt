ghost use Rattle.std.specs.Prelude.{◌≡◌};
ghost use Rattle.sheet.specs.Memory.{numbers_of};

use crate::numbers::Numbers;

// A sheet that is being planned. It moves: release takes it.
#[derive(Drop)]
pub struct Planning {
    pub(crate) numbers: Numbers,
}

// A sheet that was released. It moves: reopening takes it.
#[derive(Drop)]
pub struct Released {
    pub(crate) numbers: Numbers,
}

// A sheet in either state.
#[derive(Drop)]
pub enum Sheet {
    InPlanning(Planning),
    InRelease(Released),
}

impl Sheet {
    // How many kilograms of the allowance are used.
    pub fn used(&self) -> u32
        ensures { result ≡ (numbers_of self.now).used }
    {
        match self {
            Sheet::InPlanning(sheet) => sheet.numbers.used,
            Sheet::InRelease(sheet) => sheet.numbers.used,
        }
    }
}
