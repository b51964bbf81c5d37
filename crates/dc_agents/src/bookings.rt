//! Bookings of boot commands by two agents.

use dc_base::commands::{Command, Refusal};

/// An agent, 0 or 1, booked the command of a line of its list, counted from 0; it is refused or accepted.
#[derive(Clone, Copy, Debug, PartialEq, Eq)]
pub struct Booking {
    pub agent: u32,
    pub line: u32,
    pub command: Command,
    pub refused: Option<Refusal>,
}
