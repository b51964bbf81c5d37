//! Two agents that book boot commands: their records, and in `specs` their text.
#![tactic(auto)]

pub mod bookings;
