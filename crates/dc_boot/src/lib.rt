//! Boot commands: which cores are on and where the blocks are, what a command is answered, and the orders that carry it out.
#![tactic(auto)]

mod kernel;
mod parked;
mod place;
mod plan;
mod refusals;
mod registry;
mod start;

pub use dc_base::commands::{Command, Order, Refusal};
pub use kernel::Kernel;
pub use parked::Parked;
pub use plan::Plan;
pub use registry::Registry;
