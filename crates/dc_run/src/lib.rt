//! The run of a machine with a thread for each core, and its text.
#![tactic(auto)]

mod endings;
mod events;
mod opening;
mod rooms;
mod runs;
mod stretches;
mod texts;

pub use events::run_events;
pub use rooms::logs_have_room;
pub use runs::run;
