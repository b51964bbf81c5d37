//! The machine with cores as a scene of the stage: several threads act on its objects, and one history says what they did.
#![tactic(auto)]

mod laws;
mod machines;
mod objects;
mod openings;
mod wholes;

pub use laws::{history_is_of_the_machine, objects_are_numbered, start_is_sized, start_opens};
pub use machines::{Machine, scene};
pub use objects::{Object, Shown};
pub use openings::open_stage;
pub use wholes::Whole;
