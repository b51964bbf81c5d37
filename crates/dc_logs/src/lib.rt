//! The logs that the actors of a stage keep, and their merge into one journal.
#![tactic(auto)]

mod actor_log;
mod journals;
mod logs;
mod prefixes;
mod rests;

pub use actor_log::ActorLog;
pub use journals::journal_of;
pub use logs::{
    logs_are_counted, logs_grow, logs_stay, logs_stay_together, marks_grow, marks_stay,
    new_logs_are_empty,
};
pub use prefixes::{prefixes_go_on, prefixes_of_one_length};
pub use rests::{Resting, rests_are_now, rests_begin, rests_grow, rests_hold, rests_stay};
