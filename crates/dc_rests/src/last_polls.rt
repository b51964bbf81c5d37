//! The last poll of an await, which is made at a rest.
ghost use Rattle.std.specs.Prelude.{◌≡◌, ◌+◌, length};
ghost use Rattle.dc_crew.specs.ScriptWorks.{WorksScript};
ghost use Rattle.dc_hands.specs.Holding.{GoesOn};
ghost use Rattle.dc_hands.specs.Machines.{IsOpened};
ghost use Rattle.dc_rests.specs.LastPolls.{GrowsWithin};
ghost use Rattle.dc_rests.specs.Resting.{GrowsAt};
ghost use Rattle.dc_rounds.specs.Working.{IsNoDid};
ghost use Rattle.dc_stage.specs.Passes.{IsOf};

use crate::in_hand::look_on;
use crossbeam_utils::Backoff;
use dc_base::actions::Action;
use dc_base::numbers::Ticket;
use dc_both::EitherKernel;
use dc_hands::{ScriptHand, Turned};
use dc_journal::Logged;
use dc_logs::{ActorLog, logs_are_counted, logs_grow, logs_stay};
use dc_rounds::Went;
use dc_scene::Machine;
use dc_script_turns::script_turn;
use dc_stage::{Pass, Stage};
use std::sync::Wait;

/// The command at the script's place goes on, and its entry goes into the log, unless that is full.
fn go_on_once(
    stage: &Stage<Machine<EitherKernel>>,
    pass: &mut Pass<Machine<EitherKernel>>,
    log: &mut ActorLog,
    hand: &mut ScriptHand,
) -> Went
    requires opened { IsOpened stage.now }
    requires stage { IsOf pass.old stage.now }
    requires work { WorksScript stage.now pass.old log.old hand.old }
    ensures work { WorksScript stage.now pass.new log.new hand.new }
    ensures on { GoesOn pass.old pass.new }
    ensures log { GrowsWithin (length pass.old.seen) (length pass.new.seen) log.old log.new }
    ensures same { IsNoDid result → log.new ≡ log.old }
{
    logs_are_counted();
    logs_stay();
    logs_grow();
    if log.is_full() {
        return Went::Full;
    }
    match script_turn(stage, pass, hand, &Action::Script) {
        Turned::Did { entry, ticket } => {
            log.push(Logged {
                ticket: Ticket(ticket.0),
                entry,
            });
            Went::Did
        }
        Turned::NotEnabled(_) => Went::InVain,
        Turned::Spent => Went::InVain,
        Turned::Busy(_) => Went::Busy,
    }
}

/// Sees all entries, again and again until there is just one behind the first `n`.
fn see_one_behind<R: Wait>(
    rt: &R,
    stage: &Stage<Machine<EitherKernel>>,
    pass: &mut Pass<Machine<EitherKernel>>,
    log: &ActorLog,
    hand: &ScriptHand,
    n: u64,
)
    requires opened { IsOpened stage.now }
    requires stage { IsOf pass.old stage.now }
    requires work { WorksScript stage.now pass.old log.now hand.now }
    ensures work { WorksScript stage.now pass.new log.now hand.now }
    ensures on { GoesOn pass.old pass.new }
    ensures count { length pass.new.seen ≡ n + 1 }
{
    let backoff = Backoff::new();
    for _ in rt.forever() {
        if look_on(stage, pass, log, hand).saturating_sub(n) == 1 {
            return;
        }
        backoff.snooze();
    }
    unreachable!()
}

/// The last poll of the await at which the script stands, after `n` entries: it is made as soon as no other actor has the console, and its entry comes right
/// after these.
pub(crate) fn poll_last<R: Wait>(
    rt: &R,
    stage: &Stage<Machine<EitherKernel>>,
    pass: &mut Pass<Machine<EitherKernel>>,
    log: &mut ActorLog,
    hand: &mut ScriptHand,
    n: u64,
)
    requires opened { IsOpened stage.now }
    requires stage { IsOf pass.old stage.now }
    requires work { WorksScript stage.now pass.old log.old hand.old }
    requires count { length pass.old.seen ≡ n }
    ensures work { WorksScript stage.now pass.new log.new hand.new }
    ensures on { GoesOn pass.old pass.new }
    ensures log { GrowsAt n log.old log.new }
{
    let backoff = Backoff::new();
    for _ in rt.forever() {
        match go_on_once(stage, pass, log, hand) {
            Went::Did => {
                see_one_behind(rt, stage, pass, log, hand, n);
                return;
            }
            Went::Busy => backoff.snooze(),
            Went::InVain => return,
            Went::Full => return,
        }
    }
    unreachable!()
}
