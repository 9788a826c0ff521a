// Layer 3, edits: the faults of a sheet, and kilograms taken off and put onto stations with the nodes that follow.
#![tactic(auto)]

mod carrying;
mod edit;
mod fault;
mod memory;

pub use carrying::{carry_out, set_mass};
pub use edit::{Edit, mass_at};
pub use fault::SheetFault;
pub use memory::check_memory;
