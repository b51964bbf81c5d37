//! What an actor takes to its thread and brings home.
use dc_both::EitherKernel;
use dc_hands::Row;
use dc_logs::ActorLog;
use dc_scene::Machine;
use dc_stage::Pass;

/// An actor's pass, the log of its entries, and an empty row for the blocks that a core takes into its hand.
#[derive(Drop)]
pub struct Seat {
    pub pass: Pass<Machine<EitherKernel>>,
    pub log: ActorLog,
    pub row: Row<EitherKernel>,
}
