//! What a block reaches outside itself by `csend`, `crecv` and `out`: channels between blocks, and its console.
#![tactic(auto)]

mod channel;
mod console;

pub use channel::{Channel, ChannelFull};
pub use console::{Console, ConsoleFull};
