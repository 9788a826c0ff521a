// A refusal of the libraries as it is printed.
ghost use Rattle.std.specs.Prelude.{◌≡◌, ◌++◌, Some, codes, decimal};
ghost use Rattle.edits.specs.Faults.{sheet_number, sheet_layer, sheet_place};
ghost use Rattle.edits.specs.declared.fault.SheetFault.TheVariants.{Book as OfBook};

use book::BookFault;
use edits::SheetFault;
use std::fmt;

#[derive(Clone, Copy)]
pub struct Refusal(pub SheetFault);

// A book's fault goes up whole.
impl From<BookFault> for Refusal {
    ghost from_gives = { λ f r. r.0 ≡ OfBook f };

    fn from(f: BookFault) -> Refusal {
        Refusal(SheetFault::from(f))
    }
}

impl fmt::Display for Refusal {
    ghost output = { λ r. Some (codes "refused " ++ decimal (sheet_number r.0) ++ codes " layer " ++ decimal (sheet_layer r.0) ++ codes " place " ++ decimal (sheet_place r.0)) };

    fn fmt<W: fmt::Write>(&self, f: &mut fmt::Formatter<W>) -> fmt::Result {
        let number = self.0.number();
        let layer = self.0.layer();
        let place = self.0.place();
        write!(f, "refused {number} layer {layer} place {place}")
    }
}
