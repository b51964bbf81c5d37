//! A schedule played on the machine of an image and a script: the text of the run, and its summary.
#![tactic(auto)]

mod counting;
mod ends;
mod lines;
mod plays;
mod reporting;
mod schedules;
mod summaries;
mod totals;
mod writing;

pub use lines::{count_line, word_line};
pub use plays::{play, play_on, play_out};
pub use reporting::write_report;
pub use summaries::{Summary, play_summary};
pub use writing::{put_line, put_text};
