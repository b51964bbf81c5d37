//! Where input comes from and output goes to. Faults of reading and writing are counted, so that an answer can name its cause.
#![tactic(auto)]

mod files;
mod gates;
mod memory_shelves;
mod memory_sinks;
mod outputs;
mod reading;
mod shelves;
mod sinks;
#[cfg(test)]
mod tests;

pub use files::FileShelf;
pub use gates::{Gate, Open};
pub use memory_shelves::{MemFile, MemShelf, SteadyShelf};
pub use memory_sinks::{MemSink, SteadySink};
pub use outputs::OutSink;
pub use shelves::{Load, Shelf};
pub use sinks::{Ended, Failed, Sink, put_all};
