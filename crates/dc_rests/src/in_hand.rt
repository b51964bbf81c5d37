//! The script in its hand at a rest: how it gets there, and what it shows.
ghost use Rattle.std.specs.Prelude.{◌≡◌, ◌≤◌, ◌↔◌, [], None, IsTrue, length, true};
ghost use Rattle.dc_base.specs.Limits.{most_polls};
ghost use Rattle.dc_base.specs.Script.{next_raise};
ghost use Rattle.dc_crew.specs.ScriptWorks.{AwaitsLast, WorksScript};
ghost use Rattle.dc_hands.specs.Hands.{HoldsScript};
ghost use Rattle.dc_hands.specs.Holding.{GoesOn};
ghost use Rattle.dc_hands.specs.Machines.{IsOpened};
ghost use Rattle.dc_stage.specs.History.{own};
ghost use Rattle.dc_stage.specs.Passes.{IsOf};

use crossbeam_utils::Backoff;
use dc_base::commands::ScriptLine;
use dc_both::EitherKernel;
use dc_hands::{ScriptHand, gather_script};
use dc_logs::{ActorLog, logs_stay};
use dc_scene::{Machine, history_is_of_the_machine};
use dc_stage::{Pass, Stage};
use std::sync::Wait;

/// Takes the script as soon as no other actor has it.
pub(crate) fn take_up<R: Wait>(
    rt: &R,
    stage: &Stage<Machine<EitherKernel>>,
    pass: &mut Pass<Machine<EitherKernel>>,
    polls: u32,
) -> ScriptHand
    requires opened { IsOpened stage.now }
    requires stage { IsOf pass.old stage.now }
    requires actor { pass.old.actor ≡ stage.now.scene.settings.cores }
    requires free { pass.old.holds ≡ [] }
    requires polls { polls ≤ most_polls }
    ensures hand { HoldsScript stage.now pass.new result × (result.polls ≡ polls) }
    ensures on { GoesOn pass.old pass.new }
    ensures mine { own pass.old.actor pass.new.seen ≡ own pass.old.actor pass.old.seen }
{
    let backoff = Backoff::new();
    for _ in rt.forever() {
        if let Ok(hand) = gather_script(stage, pass, polls) {
            return hand;
        }
        backoff.snooze();
    }
    unreachable!()
}

/// Sees all entries, and tells how many there are. The hand and the log stay.
pub(crate) fn look_on(
    stage: &Stage<Machine<EitherKernel>>,
    pass: &mut Pass<Machine<EitherKernel>>,
    log: &ActorLog,
    hand: &ScriptHand,
) -> u64
    requires opened { IsOpened stage.now }
    requires stage { IsOf pass.old stage.now }
    requires work { WorksScript stage.now pass.old log.now hand.now }
    ensures work { WorksScript stage.now pass.new log.now hand.now }
    ensures on { GoesOn pass.old pass.new }
    ensures count { result ≡ length pass.new.seen }
{
    history_is_of_the_machine::<EitherKernel>();
    logs_stay();
    stage.look(pass)
}

/// Whether every command is finished and every raise is made.
pub(crate) fn is_answered(hand: &ScriptHand) -> bool
    ensures commands { result ≡ true → hand.now.script.place ≡ length hand.now.script.lines }
    ensures raises { result ≡ true → next_raise hand.now.script.lines hand.now.script.raises ≡ None }
{
    hand.is_over() && hand.next_raise().is_none()
}

/// Whether the script stands at an await whose next poll is the last.
pub(crate) fn awaits_last(hand: &ScriptHand) -> bool
    ensures { IsTrue result ↔ AwaitsLast hand.now }
{
    match hand.line(hand.place()) {
        Some(ScriptLine::Await(_, _, limit)) => limit == 0 || limit - 1 <= hand.polls(),
        _ => false,
    }
}
