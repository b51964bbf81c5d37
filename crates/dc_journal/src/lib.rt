//! The lines of journals and of reports, journals read back, and the logs of actors merged into one history.
#![tactic(auto)]

mod candidates;
mod ends;
mod entries;
mod journals;
mod merging;
mod names;
mod refusals;
mod reports;
mod whats;
mod words;

pub use entries::{entry_line, has_line, push_entry};
pub use journals::read_journal;
pub use merging::{Logged, merge};
pub use reports::{push_report_line, report_line};
