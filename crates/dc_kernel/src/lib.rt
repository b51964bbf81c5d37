//! What a kernel is, and one kernel over any ready list and any queue of timers.
#![tactic(auto)]

mod both;
mod drivers;
mod kernels;
mod laws;

pub use both::Both;
pub use drivers::{Begun, Driver};
pub use kernels::Kernel;
pub use laws::{adopt_and_surrender, slice_is_done};
