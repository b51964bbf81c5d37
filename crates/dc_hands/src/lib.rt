//! The objects of an actor of a machine: taken from the stage one by one, held in a hand from turn to turn, changed with an entry, and put back.
#![tactic(auto)]

mod answers;
mod commits;
mod gathers;
mod hands;
mod numbers;
mod of_kind;
mod rows;
mod takes;
mod waiting;

pub use answers::Turned;
pub use commits::commit;
pub use gathers::{gather_core, gather_script, put_blocks, stow_core, stow_script};
pub use hands::{CoreHand, ScriptHand};
pub use rows::{Row, RowNumbers};
pub use takes::{
    Busy, put_block, put_channel, put_console, put_core, put_line, put_mailbox, put_script,
    take_block, take_channel, take_console, take_core, take_line, take_mailbox, take_script,
};
pub use waiting::hands_show_their_blocks;
