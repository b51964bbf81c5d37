//! What the script does at a rest.
ghost use Rattle.std.specs.Prelude.{◌≡◌, ◌<◌, ◌≤◌, length, true};
ghost use Rattle.dc_base.specs.Limits.{most_polls};
ghost use Rattle.dc_base.specs.PlayText.{IsAnswered};
ghost use Rattle.dc_crew.specs.Laters.{IsLaterSeat};
ghost use Rattle.dc_crew.specs.ScriptWorks.{WorksScript};
ghost use Rattle.dc_crew.specs.Seats.{IsScriptSeat};
ghost use Rattle.dc_hands.specs.Holding.{GoesOn};
ghost use Rattle.dc_hands.specs.Machines.{IsOpened, state_after};
ghost use Rattle.dc_rests.specs.Resting.{GrowsAt};
ghost use Rattle.dc_stage.specs.Passes.{IsOf};

use crate::in_hand::{awaits_last, is_answered, look_on, take_up};
use crate::last_polls::poll_last;
use dc_both::EitherKernel;
use dc_crew::Seat;
use dc_hands::{ScriptHand, stow_script};
use dc_logs::{ActorLog, logs_stay};
use dc_scene::Machine;
use dc_stage::{Pass, Stage};
use std::sync::Wait;

/// The script's seat after a rest, how many polls were made of the command at its place, and whether the script is over.
#[derive(Drop)]
pub struct AtRest {
    pub script: Seat,
    pub polls: u32,
    pub is_over: bool,
}

/// What the script in its hand does at a rest after `n` entries, and whether it is over. Where there are more entries it does nothing.
fn act_in_hand<R: Wait>(
    rt: &R,
    stage: &Stage<Machine<EitherKernel>>,
    pass: &mut Pass<Machine<EitherKernel>>,
    log: &mut ActorLog,
    hand: &mut ScriptHand,
    n: u64,
) -> bool
    requires opened { IsOpened stage.now }
    requires stage { IsOf pass.old stage.now }
    requires work { WorksScript stage.now pass.old log.old hand.old }
    ensures work { WorksScript stage.now pass.new log.new hand.new }
    ensures on { GoesOn pass.old pass.new }
    ensures log { GrowsAt n log.old log.new }
    ensures over { result ≡ true → (log.new ≡ log.old) × (length pass.new.seen ≡ n) × IsAnswered (state_after stage.now pass.new.seen) }
{
    if look_on(stage, pass, log, hand) != n {
        return false;
    }
    if is_answered(hand) {
        return true;
    }
    if awaits_last(hand) {
        poll_last(rt, stage, pass, log, hand, n);
    }
    false
}

/// The script at a rest after `n` entries: it makes the last poll of an await, or finds that it is over, or does nothing. An await that ends here for want of
/// words ends right after these entries.
pub fn act_at_rest<R: Wait>(
    rt: &R,
    stage: &Stage<Machine<EitherKernel>>,
    script: Seat,
    polls: u32,
    n: u64,
) -> AtRest
    requires opened { IsOpened stage.now }
    requires script { IsScriptSeat stage.now script }
    requires seen { length script.pass.seen ≡ n }
    requires room { length script.log.entries < script.log.room }
    requires polls { polls ≤ most_polls }
    ensures script { IsLaterSeat stage.now script result.script }
    ensures log { GrowsAt n script.log result.script.log }
    ensures polls { result.polls ≤ most_polls }
    ensures over { result.is_over ≡ true → (result.script.log ≡ script.log) × (length result.script.pass.seen ≡ n)
        × IsAnswered (state_after stage.now result.script.pass.seen) }
{
    logs_stay();
    let mut script = script;
    let mut hand = take_up(rt, stage, &mut script.pass, polls);
    let is_over = act_in_hand(rt, stage, &mut script.pass, &mut script.log, &mut hand, n);
    let polls = stow_script(stage, &mut script.pass, hand);
    AtRest {
        script,
        polls,
        is_over,
    }
}
