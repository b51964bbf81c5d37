//! What is read of an image before a part of it, and concerns that part.

use dc_base::images::{BlockImage, ChanImage, CoreImage};

/// What concerns the blocks.
#[derive(Clone, Copy)]
pub struct Machine<'a> {
    pub cores: &'a [CoreImage],
    pub channels: &'a [ChanImage],
    pub lines: u32,
}

/// What the capabilities of a block may name, beside its memory.
#[derive(Clone, Copy)]
pub struct Around<'a> {
    pub block: u8,
    pub ports: u32,
    pub signals: u32,
    pub channels: &'a [ChanImage],
    pub lines: u32,
    /// The blocks before this one.
    pub before: &'a [BlockImage],
}
