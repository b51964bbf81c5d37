//! The ports and signals of a block.
#![tactic(auto)]

mod port;
mod signal;

pub use dc_base::interrupts::{Latch, Latched, Source};
pub use port::{Port, PortFull};
pub use signal::Signal;
