//! The kernel calls by name, what a call needs, and how a slice ends.

use crate::numbers::{ChanNo, LineNo};

/// The kernel calls by name.
#[derive(Clone, Copy, Debug, PartialEq, Eq)]
pub enum Op {
    Out,
    Yield,
    Send,
    Recv,
    Csend,
    Crecv,
    Wait,
    Arm,
    Copy,
    Retype,
    Delete,
    Revoke,
    Bind,
    Give,
    Claim,
}

/// The object outside its block that a kernel call needs: none, a channel, a line, or the block's console.
#[derive(Clone, Copy, Debug, PartialEq, Eq)]
pub enum Need {
    Nothing,
    Channel(ChanNo),
    Line(LineNo),
    Console,
}

/// How a slice ended: after its quantum, by `halt`, in a trap from 1 to 12, with a call that was made, at a call that cannot go on, or with no dispatcher
/// ready.
#[derive(Clone, Copy, Debug, PartialEq, Eq)]
pub enum End {
    Quantum,
    Halt,
    Trap(u8),
    Call(Op),
    Hold(Op),
    Empty,
}
