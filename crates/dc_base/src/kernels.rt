//! The versions of the kernel, and how it treats the time of a block at rest.

/// The versions of the kernel: round robin, and the earliest due first.
#[derive(Clone, Copy, Debug, PartialEq, Eq)]
pub enum Version {
    Rr,
    Edf,
}

/// What the time of a block at rest does: it stands still, or it catches up with the clock of the core that adopts the block.
#[derive(Clone, Copy, Debug, PartialEq, Eq)]
pub enum Clocks {
    Kept,
    Running,
}
