// Layer 1: call records. A call is written as a little-endian record into memory that the caller lends,
// and read back from bytes.
#![tactic(auto)]

mod call;
mod fault;
mod form;
mod reader;
mod round_trip;
mod writer;

pub use call::Call;
pub use fault::RecordFault;
pub use reader::read;
pub use round_trip::echo;
pub use writer::Writer;
