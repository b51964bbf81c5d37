//! A core at work on the stage of a machine: rounds of its actions, whose entries go into its log, and whether it can do nothing.
#![tactic(auto)]

mod acting;
mod homes;
mod looking;
mod quiet;
mod rounds;

pub use acting::{Went, act};
pub use homes::{is_core_quiet, look_at_home, round_once};
pub use looking::look_at_work;
pub use quiet::is_quiet_at;
pub use rounds::{Round, go_round};
