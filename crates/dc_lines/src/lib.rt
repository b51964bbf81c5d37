//! An interrupt line: what it is bound to, where it is routed, its raises and its offer.
#![tactic(auto)]

mod counts;
mod line;

pub use counts::Counts;
pub use dc_base::interrupts::Raised;
pub use line::Line;
