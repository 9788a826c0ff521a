// Layer 2: what a book holds (stations, the basic record, zones, frames, the envelope), and which of its
// rules a given book breaks first.
#![tactic(auto)]

mod basic;
mod corners;
mod envelope;
mod fault;
mod frame;
mod limits;
mod polygon;
mod ranges;
mod rule;
mod station;
mod totals;
mod turn;
mod vertex;
mod zone;

pub use basic::Basic;
pub use envelope::Envelope;
pub use fault::BookFault;
pub use frame::{Frame, Side, check_frames};
pub use limits::Limits;
pub use station::{Station, check_count, check_stations};
pub use totals::Totals;
pub use vertex::Vertex;
pub use zone::{Zone, check_zones};
