ghost use Rattle.std.specs.Prelude.{◌≡◌};
ghost use Rattle.book.specs.Faults.{book_number, book_layer, book_place};
ghost use Rattle.book.specs.declared.fault.BookFault.TheVariants.{Record as OfRecord};

use records::RecordFault;

// The book is the second layer.
const LAYER: u8 = 2;

// Why a book is refused, or the fault of a record that came from below.
#[derive(Clone, Copy, Debug, PartialEq, Eq)]
pub enum BookFault {
    Record(RecordFault),
    // No station, or more than 256.
    StationCount,
    // A field of this station is out of its limits.
    StationField { station: usize },
    // A field of the basic record is out of its limits.
    BasicField,
    // More than 32 zones.
    ZoneCount,
    // This zone is empty, ends past the last station, or has its limit out.
    ZoneField { zone: usize },
    // More than 32 frames.
    FrameCount,
    // A field of this frame is out of its limits.
    FrameField { frame: usize },
    // Fewer than 3 vertices, or more than 16.
    VertexCount,
    // A field of this vertex is out of its limits.
    VertexField { vertex: usize },
    // Some vertex does not lie strictly left of some edge that is not its own.
    NotConvex,
}

// A record's fault goes up whole. By hand, since the contracts above cite `from_gives`.
impl From<RecordFault> for BookFault {
    ghost from_gives = { λ f r. r ≡ OfRecord f };

    fn from(f: RecordFault) -> BookFault {
        Self::Record(f)
    }
}

impl BookFault {
    // The refusal's number.
    pub fn number(&self) -> u8
        ensures { result ≡ book_number self.now }
    {
        match self {
            BookFault::Record(f) => f.number(),
            BookFault::StationCount => 3,
            BookFault::StationField { .. } => 4,
            BookFault::BasicField => 5,
            BookFault::ZoneCount | BookFault::ZoneField { .. } => 6,
            BookFault::FrameCount | BookFault::FrameField { .. } => 7,
            BookFault::VertexCount | BookFault::VertexField { .. } | BookFault::NotConvex => 8,
        }
    }

    // The layer that found it.
    pub fn layer(&self) -> u8
        ensures { result ≡ book_layer self.now }
    {
        match self {
            BookFault::Record(f) => f.layer(),
            _ => LAYER,
        }
    }

    // The first station, zone, frame or vertex at fault, 0 for a whole list, the property or the basic record.
    pub fn place(&self) -> usize
        ensures { result ≡ book_place self.now }
    {
        match self {
            BookFault::Record(f) => f.place(),
            BookFault::StationField { station } => *station,
            BookFault::ZoneField { zone } => *zone,
            BookFault::FrameField { frame } => *frame,
            BookFault::VertexField { vertex } => *vertex,
            _ => 0,
        }
    }
}
