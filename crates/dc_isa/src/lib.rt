//! Instructions, their words, the assembler, and the dispatchers that run them.
#![tactic(auto)]

mod assembler;
mod dispatchers;
mod labels;
mod operands;
mod operations;
mod scan;
mod statements;
mod words;

pub use assembler::assemble;
pub use dc_base::calls::Op;
pub use dc_base::dispatchers::{DispState, Wait};
pub use dc_base::faults::{AsmFault, AsmKind};
pub use dc_base::instructions::Instr;
pub use dispatchers::Dispatcher;
pub use words::{decode, encode, is_proper};
