// Kinds of summary: what a range of stations comes to, joined nose to tail. The interface, the delivered
// kinds, judged kinds, tests, and what the joined summaries mean.
#![tactic(auto)]

mod at_least;
mod beside;
mod deck;
mod floor_record;
mod fore_broken;
mod house;
mod judged;
mod kind;
mod margins;
mod mass_moment;
mod running_load;
mod test_of;

pub use at_least::AtLeast;
pub use beside::Beside;
pub use deck::{beside_from, deck_from, house_from, meets_from};
pub use floor_record::{FloorRecord, Over};
pub use fore_broken::ForeBroken;
pub use house::House;
pub use judged::Judged;
pub use kind::Kind;
pub use mass_moment::MassMoment;
pub use running_load::RunningLoad;
pub use test_of::Test;
