//! Signals, the timers that fire at them, and raises of lines.

use crate::numbers::{LineNo, SignalNo};

/// Where a latch comes from.
#[derive(Clone, Copy, Debug, PartialEq, Eq)]
pub enum Source {
    Timer,
    Line(LineNo),
}

/// What a signal holds: its source, and the value of the timer or the number of the raise.
#[derive(Clone, Copy, Debug, PartialEq, Eq)]
pub struct Latch {
    pub source: Source,
    pub value: u32,
}

/// How a latch came to its signal: it was put there, or the signal had one already, which stays.
#[derive(Clone, Copy, Debug, PartialEq, Eq)]
pub enum Latched {
    Latched,
    Coalesced,
}

/// How a raise came to its line, with its number, counted from 1: it is pending, another was pending already, or the line is not bound.
#[derive(Clone, Copy, Debug, PartialEq, Eq)]
pub enum Raised {
    Pended(u32),
    Coalesced(u32),
    Stray(u32),
}

/// An armed timer: it fires once the time of its block is at least its deadline, and latches its signal with its value. Timers of a block are numbered from 0.
#[derive(Clone, Copy, Debug, Default, PartialEq, Eq)]
pub struct Timer {
    pub deadline: u64,
    pub number: u32,
    pub signal: SignalNo,
    pub value: u32,
}
