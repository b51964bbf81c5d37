//! Laws of the histories that several threads make together: each is as good as a run of one actor after another.
#![tactic(auto)]

mod closing;
mod histories;
mod journals;
mod resting;

pub use closing::closed_objects_are_the_state;
pub use histories::{beginnings_are_lawful, histories_keep_sound};
pub use journals::lawful_histories_are_run_journals;
pub use resting::fruitless_cores_rest;
