//! A block as a kernel works on it, with no kernel: what its kernel calls need, their faults, and what they and whole slices do to it.
#![tactic(auto)]

mod agendas;
mod answers;
mod calls;
mod forms;
mod handovers;
mod outsides;
mod readers;
mod serving;
mod sliced;
mod slices;

pub use answers::Answer;
pub use forms::Form;
pub use outsides::Outside;
pub use sliced::Sliced;
