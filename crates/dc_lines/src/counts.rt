/// What became of the raises of a line: all raises, those while it was unbound, those while one was pending,
/// and those that an intake gave to the signal or joined to a latch that was there.
#[derive(Clone, Copy, Debug, Default, PartialEq, Eq)]
pub struct Counts {
    pub raised: u32,
    pub stray: u32,
    pub merged: u32,
    pub given: u32,
    pub joined: u32,
}
