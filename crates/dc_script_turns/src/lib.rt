//! The turns of a script on the stage of a machine: its command goes on, or its next raise is made.
#![tactic(auto)]

mod awaits;
mod commands;
mod posts;
mod raises;
mod script_turns;

pub use script_turns::{poll_on, script_turn};
