// The segment tree over a deck's stations, for every kind of summary: node memory lent by the caller.
#![tactic(auto)]

mod calls;
mod descent;
mod inner;
mod joins;
mod leaves;
mod misfit;
mod spans;
mod tree;
mod widths;

pub use misfit::Misfit;
pub use tree::{fill, first, range, renew};
pub use widths::{fits, nodes_for};
