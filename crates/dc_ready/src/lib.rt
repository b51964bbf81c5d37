//! Ready lists: which of a block's ready dispatchers runs next.
#![tactic(auto)]

mod due_heaps;
mod fifos;
mod heaps;
mod lists;

pub use due_heaps::DueHeap;
pub use fifos::Fifo;
pub use lists::ReadyList;
