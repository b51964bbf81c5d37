//! Images, read from their text.
#![tactic(auto)]

mod around;
mod arrays;
mod blocks;
mod caps;
mod channels;
mod cores;
mod disps;
mod faults;
mod image;
mod keys;
mod kinds;
mod read;
mod values;

pub use read::read_image;
