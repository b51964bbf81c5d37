//! The kernel control block: all that a kernel has of a block, at rest.
#![tactic(auto)]

mod boot;
mod copies;
mod fields;
mod kcb;
mod parts;
mod readers;
mod seating;
mod slots;
mod starts;

pub use copies::copied;
pub use fields::{code_in, disp_in, dispatchers_are_read, latch_in, port_in};
pub use kcb::Kcb;
pub use parts::Parts;
pub use slots::{cap_in, parent_in};
