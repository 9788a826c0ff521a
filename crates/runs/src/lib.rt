// Runs of calls on a sheet, and the law over every one of them.
#![tactic(auto)]

mod ask;
mod carrying;
mod draft;
mod replaying;
mod running;
mod said;
mod steps;
mod unrun;

pub use ask::Ask;
pub use replaying::{replay, replay_draft, step};
pub use unrun::Unrun;
