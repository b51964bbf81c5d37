//! The turns of a core on the stage of a machine, with the core and the blocks of its share in its hand: its step, its order, an intake and a wake.
#![tactic(auto)]

mod acknowledging;
mod adoptions;
mod core_turns;
mod intakes;
mod lending;
mod orders;
mod outsides;
mod releases;
mod replacements;
mod row_orders;
mod shutdowns;
mod starts;
mod steps;
mod stops;
mod wakes;

pub use core_turns::core_turn;
