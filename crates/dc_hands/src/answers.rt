//! What a turn of an actor answers.

use crate::takes::Busy;
use dc_base::entries::{Entry, Reason};
use dc_stage::Ticket;

/// What a turn came to: its entry with its place in the history, or why there is none, or an object that another actor had.
#[derive(Clone, Copy, Debug, PartialEq, Eq)]
pub enum Turned {
    Did { entry: Entry, ticket: Ticket },
    NotEnabled(Reason),
    Spent,
    Busy(Busy),
}
