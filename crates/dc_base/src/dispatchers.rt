//! The states of a dispatcher.

use crate::numbers::{ChanNo, PortNo, SignalNo};

/// What a dispatcher waits for: to send to or receive from a port, a signal, or to send to or receive from a channel.
#[derive(Clone, Copy, Debug, PartialEq, Eq)]
pub enum Wait {
    Send(PortNo),
    Recv(PortNo),
    Signal(SignalNo),
    Csend(ChanNo),
    Crecv(ChanNo),
}

/// The state of a dispatcher. A trapped one has its trap, from 1 to 12; a halted or trapped one never runs again.
#[derive(Clone, Copy, Debug, PartialEq, Eq)]
pub enum DispState {
    Ready,
    Halted,
    Trapped(u8),
    Waits(Wait),
}
