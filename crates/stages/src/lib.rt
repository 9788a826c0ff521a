// Stages of loading: edits in the form of call records, carried out one by one, judged after each, and taken back.
#![tactic(auto)]

mod back;
mod call;
mod ending;
mod plan;
mod run;
mod stage;
mod step;

pub use call::stages;
pub use ending::Ending;
