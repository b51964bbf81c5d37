//! A core at work looks at the length of the history.

ghost use Rattle.std.specs.Prelude.{◌≡◌, length};
ghost use Rattle.dc_stage.specs.Passes.{IsOf};
ghost use Rattle.dc_hands.specs.Holding.{GoesOn};
ghost use Rattle.dc_hands.specs.Machines.{IsOpened};
ghost use Rattle.dc_rounds.specs.Working.{WorksCore};

use dc_hands::CoreHand;
use dc_kernel::Driver;
use dc_logs::{ActorLog, logs_stay};
use dc_scene::{Machine, history_is_of_the_machine};
use dc_stage::{Pass, Stage};

/// Sees all entries, and tells how many there are. The hand and the log stay.
pub fn look_at_work<D: Driver>(
    stage: &Stage<Machine<D>>,
    pass: &mut Pass<Machine<D>>,
    log: &ActorLog,
    hand: &CoreHand<D>,
) -> u64
    requires opened { IsOpened stage.now }
    requires stage { IsOf pass.old stage.now }
    requires work { WorksCore stage.now pass.old log.now hand.now }
    ensures work { WorksCore stage.now pass.new log.now hand.now }
    ensures on { GoesOn pass.old pass.new }
    ensures count { result ≡ length pass.new.seen }
{
    history_is_of_the_machine::<D>();
    logs_stay();
    stage.look(pass)
}
