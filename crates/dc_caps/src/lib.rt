//! The capabilities of a block.
#![tactic(auto)]

mod faults;
mod held;
mod kinds;
mod table;

pub use faults::{CapFault, trap};
pub use table::Table;
