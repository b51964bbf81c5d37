//! How the plain part of a slice ends.

use dc_isa::Instr;

/// How the plain part of a slice ended: after the quantum, after `halt`, before a trap, or before a kernel call.
#[derive(Clone, Copy, Debug, PartialEq, Eq)]
pub enum AheadEnd {
    Quantum,
    Halt,
    Trap(u8),
    Call(Instr),
}

/// How many instructions of the plain part of a slice ran, and how it ended.
#[derive(Clone, Copy, Debug, PartialEq, Eq)]
pub struct Ran {
    pub ran: u32,
    pub end: AheadEnd,
}
