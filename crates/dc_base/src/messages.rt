//! Messages of ports and channels.

/// Four words of 32 bits.
#[derive(Clone, Copy, Debug, Default, PartialEq, Eq)]
pub struct Message(pub [u32; 4]);
