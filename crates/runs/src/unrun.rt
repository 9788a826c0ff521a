ghost use Rattle.std.specs.Prelude.{◌≡◌};
ghost use Rattle.runs.specs.declared.unrun.Unrun.TheVariants.{Refused};

use edits::SheetFault;

// Why a run of calls was not begun.
#[derive(Clone, Copy)]
pub enum Unrun {
    // There is no room for an answer to each call.
    NoRoom,
    // The opening was refused.
    Refused(SheetFault),
}

// A refused opening goes up whole.
impl From<SheetFault> for Unrun {
    ghost from_gives = { λ fault r. r ≡ Refused fault };

    fn from(fault: SheetFault) -> Unrun {
        Unrun::Refused(fault)
    }
}
