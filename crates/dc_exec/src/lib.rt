//! What plain instructions do, one by one and up to a kernel call.
#![tactic(auto)]

mod calls;
mod ends;
mod memories;
mod slices;
mod steps;
mod turns;
mod windows;

pub use calls::call_name;
pub use ends::{AheadEnd, Ran};
pub use memories::Memory;
pub use slices::{end_ahead, run};
pub use steps::{Went, plain};
pub use windows::Window;
