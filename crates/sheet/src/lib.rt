// Layer 3: the sheet. Its states, its calls, and what any run of them answers and leaves.
#![tactic(auto)]

mod answer;
mod asking;
mod call;
mod changing;
mod correction;
mod editing;
mod inspect;
mod numbers;
mod opening;
mod planning;
mod rehearsing;
mod released;
mod states;
mod weighing;

pub use answer::Answer;
pub use call::Call;
pub use correction::Correction;
pub use inspect::Inspect;
pub use numbers::Numbers;
pub use states::{Planning, Released, Sheet};
