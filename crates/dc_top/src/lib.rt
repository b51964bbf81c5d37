//! The top calls: a play of three files, a run of two files with threads, the summary of a generated input, and the command line.
#![tactic(auto)]

mod bad_inputs;
mod calls;
mod commands;
mod generated;
mod halts;
mod inputs;
mod loads;
mod requests;
mod run_calls;
mod statuses;
mod tellings;

pub use calls::play_call;
pub use commands::command;
pub use generated::gen_call;
pub use run_calls::run_call;
