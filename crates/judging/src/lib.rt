// Judges a deck at the masses aboard: the first broken limit, by a verdict code and a place.
#![tactic(auto)]

mod aft;
mod bending;
mod breach;
mod checks;
mod closing;
mod deck;
mod firsts;
mod floors;
mod fore;
mod frames;
mod judgement;
mod occasion;
mod running;
mod sides;
mod zones;

pub use judgement::judge;
pub use occasion::Occasion;
