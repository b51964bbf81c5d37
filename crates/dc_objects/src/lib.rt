//! The objects of the machine with cores: their states, what becomes of them, and how they start.
#![tactic(auto)]

mod blocks;
mod cores;
mod handovers;
mod mailboxes;
mod places;
mod readers;
mod scripts;
mod settings;
mod starts;
mod whole;

pub use blocks::BlockState;
pub use cores::CoreState;
pub use mailboxes::Mailbox;
pub use scripts::ScriptState;
pub use settings::Settings;
pub use starts::objects;
pub use whole::Objects;
