//! Rests of a run: no core can act any more, and the script makes the last poll of an await, or is at its end.
#![tactic(auto)]

mod at_rests;
mod in_hand;
mod last_polls;
mod seat_logs;
mod settling;
mod turning;

pub use at_rests::{AtRest, act_at_rest};
pub use settling::{Settled, settle};
