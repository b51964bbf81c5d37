//! The lines of the report of a machine, one by one.
#![tactic(auto)]

mod blocks;
mod caps;
mod channels;
mod cores;
mod cursor;
mod disps;
mod latches;
mod lines;
mod messages;
mod outputs;
mod parts;
mod places;
mod signals;
mod timers;

pub use cursor::Report;
