ghost use Rattle.std.specs.Prelude.{◌≡◌};
ghost use Rattle.edits.specs.Faults.{sheet_number, sheet_layer, sheet_place};
ghost use Rattle.edits.specs.declared.fault.SheetFault.TheVariants.{Book as OfBook};

use book::BookFault;

// The sheet is the third layer.
const LAYER: u8 = 3;

// Why a call on a sheet is refused, or the fault of a book or a record that came from below.
#[derive(Clone, Copy, Debug, PartialEq, Eq)]
pub enum SheetFault {
    Book(BookFault),
    // Station or node memory of another length.
    OtherLength,
    NoStation { station: usize },
    // No kilograms, or more than 30,000.
    BadKilograms,
    // A shift to its own station.
    SameStation { station: usize },
    // The station would hold more than 30,000 kg.
    TooHeavy { station: usize },
    // The station holds less than is taken.
    HoldsLess { station: usize },
    // `from` not below `to`, or `to` past the last station.
    NoRange,
    // Release with a broken limit, by its verdict code: a number, since it is the fault's place.
    NotKept { code: u8 },
    // More kilograms changed after release than the allowance.
    OverAllowance,
    // A change that breaks a limit, by its verdict code, a number as in `NotKept`.
    Breaks { code: u8 },
    // A 257th stage.
    TooManyStages,
}

// A book's fault goes up whole. By hand, since contracts cite `from_gives`.
impl From<BookFault> for SheetFault {
    ghost from_gives = { λ f r. r ≡ OfBook f };

    fn from(f: BookFault) -> SheetFault {
        Self::Book(f)
    }
}

impl SheetFault {
    // The refusal's number.
    pub fn number(&self) -> u8
        ensures { result ≡ sheet_number self.now }
    {
        match self {
            SheetFault::Book(f) => f.number(),
            SheetFault::OtherLength => 1,
            SheetFault::NoStation { .. } => 9,
            SheetFault::BadKilograms => 10,
            SheetFault::SameStation { .. } => 11,
            SheetFault::TooHeavy { .. } => 12,
            SheetFault::HoldsLess { .. } => 13,
            SheetFault::NoRange => 14,
            SheetFault::NotKept { .. } => 15,
            SheetFault::OverAllowance => 16,
            SheetFault::Breaks { .. } => 17,
            SheetFault::TooManyStages => 18,
        }
    }

    // The layer that found it.
    pub fn layer(&self) -> u8
        ensures { result ≡ sheet_layer self.now }
    {
        match self {
            SheetFault::Book(f) => f.layer(),
            _ => LAYER,
        }
    }

    // The station at fault, or the verdict code of a broken limit, else 0.
    pub fn place(&self) -> usize
        ensures { result ≡ sheet_place self.now }
    {
        match self {
            SheetFault::Book(f) => f.place(),
            SheetFault::NoStation { station }
            | SheetFault::SameStation { station }
            | SheetFault::TooHeavy { station }
            | SheetFault::HoldsLess { station } => *station,
            SheetFault::NotKept { code } | SheetFault::Breaks { code } => usize::from(*code),
            _ => 0,
        }
    }
}
