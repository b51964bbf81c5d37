//! The kernel calls.

mod channels;
mod copies;
mod ends;
mod lines;
mod messages;
mod needs;
mod ports;
mod prints;
mod removals;
mod retypes;
mod signals;
mod tested;
