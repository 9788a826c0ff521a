ghost use Rattle.std.specs.Prelude.{◌≡◌};
ghost use Rattle.records.specs.Faults.{fault_number, fault_layer, fault_place};

// Records are the lowest layer.
const LAYER: u8 = 1;

// Why a record could not be written or read.
#[derive(Clone, Copy, Debug, PartialEq, Eq)]
pub enum RecordFault {
    // The caller's memory has no room for the next field.
    NoRoom,
    // Fewer than four bytes are there, or fewer than the record's length says.
    Short { at: usize },
    // No call has this kind.
    UnknownKind { at: usize },
    // A call of this kind has another length.
    WrongLength { at: usize },
}

impl RecordFault {
    // The refusal's number.
    pub fn number(&self) -> u8
        ensures { result ≡ fault_number self.now }
    {
        match self {
            RecordFault::NoRoom => 2,
            RecordFault::Short { .. } => 19,
            RecordFault::UnknownKind { .. } => 20,
            RecordFault::WrongLength { .. } => 21,
        }
    }

    // The layer that found it.
    pub fn layer(&self) -> u8
        ensures { result ≡ fault_layer self.now }
    {
        LAYER
    }

    // The record's first byte, or 0 where no place is named.
    pub fn place(&self) -> usize
        ensures { result ≡ fault_place self.now }
    {
        match self {
            RecordFault::NoRoom => 0,
            RecordFault::Short { at }
            | RecordFault::UnknownKind { at }
            | RecordFault::WrongLength { at } => *at,
        }
    }
}
