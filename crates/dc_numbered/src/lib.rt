//! The objects of a machine by kind in one list by number, and back. No memory is taken.
#![tactic(auto)]

mod counts;
mod gathering;
mod kinds;
mod laws;
mod sorting;

pub use counts::room_for;
pub use gathering::by_number;
pub use kinds::Kinds;
pub use laws::objects_are_counted;
pub use sorting::by_kind;
