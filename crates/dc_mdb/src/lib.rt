//! The derivation forest of a block's capability slots.
#![tactic(auto)]

mod forests;
mod links;

pub use forests::{Forest, ForestFault};
