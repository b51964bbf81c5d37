//! A stage: objects that actors of any threads take, change and put back, and one lawful history of all that they did.
#![tactic(auto)]

mod carried;
mod closing;
mod opening;
mod pass;
mod rows;
mod rule;
mod scene;
mod stage;
mod steps;
mod taken;
#[cfg(test)]
mod tests;
mod view;

pub use closing::Closed;
pub use opening::StageMemory;
pub use pass::Pass;
pub use scene::Scene;
pub use stage::{Stage, Ticket};
pub use taken::Taken;
