//! The machine with cores: what each action of each actor does to its objects.
#![tactic(auto)]

mod commands;
mod intakes;
mod orders;
mod outsides;
mod posts;
mod raises;
mod steps;
mod turns;
mod wakes;

pub use dc_bodies::Stepped;
pub use dc_objects::{BlockState, CoreState, Mailbox, Objects, ScriptState, Settings, objects};
pub use turns::step;
