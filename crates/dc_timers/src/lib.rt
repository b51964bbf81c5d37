//! The time of a block, and its armed timers.
#![tactic(auto)]

mod buckets;
mod clocks;
mod orders;
mod queues;
mod timer_lists;
mod timer_wheels;

pub use clocks::Clock;
pub use queues::{TimerQueue, TimersFull};
pub use timer_lists::TimerList;
pub use timer_wheels::TimerWheel;
