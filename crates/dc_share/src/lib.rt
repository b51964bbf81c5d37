//! The share of a core: the blocks that it runs, in the order in which it runs them.
#![tactic(auto)]

mod seat;
mod share;

pub use share::Share;
