//! A run of a machine with a thread for each core: how the threads start and come home, and how all passes end.
#![tactic(auto)]

mod at_work;
mod core_work;
mod crews;
mod ends;
mod flags;
mod joins;
mod script_acting;
mod script_work;
mod seats;
mod starts;
mod threads;
mod turning;

pub use crews::{Home, run_crew};
pub use ends::{Ended, end};
pub use flags::Flags;
pub use seats::Seat;
pub use starts::{Crew, make_seats};
pub use threads::Started;
