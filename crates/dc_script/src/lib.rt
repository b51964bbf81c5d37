//! Scripts and schedules: their texts are read, within bounds on the cores, blocks and lines that they name.
#![tactic(auto)]

mod commands;
mod found;
mod lists;
mod schedules;
mod scripts;
mod shorts;
mod texts;
mod values;
mod words;

pub use dc_base::commands::{Bounds, ScriptLine};
pub use dc_base::faults::{TextFault, TextKind};
pub use lists::Schedule;
pub use schedules::read_schedule;
pub use scripts::{Script, read_script};
