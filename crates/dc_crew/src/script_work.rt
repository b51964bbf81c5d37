//! The script's turns, while the cores work.
ghost use Rattle.std.specs.Prelude.{◌≡◌, ◌≤◌, ◌↔◌, [], List, IsTrue, length, vec_capacity};
ghost use Rattle.dc_base.specs.Limits.{most_polls};
ghost use Rattle.dc_hands.specs.Hands.{HoldsScript};
ghost use Rattle.dc_hands.specs.Holding.{GoesOn};
ghost use Rattle.dc_hands.specs.Machines.{IsOpened};
ghost use Rattle.dc_logs.specs.Rests.{AllOf};
ghost use Rattle.dc_crew.specs.Laters.{IsLaterSeat, Pairs};
ghost use Rattle.dc_crew.specs.ScriptWorks.{AwaitsLast, GrowsQuietly, WorksScript};
ghost use Rattle.dc_crew.specs.Seats.{IsCoreSeat, IsScriptSeat};
ghost use Rattle.dc_crew.specs.Started.{IsStarted};
ghost use Rattle.dc_crew.specs.declared.seats.Seat.{Seat as Seated};
ghost use Rattle.dc_stage.specs.History.{own};
ghost use Rattle.dc_stage.specs.Passes.{IsOf};

use crate::flags::Flags;
use crate::script_acting::{poll_script, raise_script};
use crate::seats::Seat;
use crate::threads::Started;
use crate::turning::turn_all_here;
use crossbeam_utils::Backoff;
use dc_base::commands::ScriptLine;
use dc_both::EitherKernel;
use dc_hands::{ScriptHand, gather_script, stow_script};
use dc_io::Gate;
use dc_logs::{ActorLog, logs_stay};
use dc_rounds::Went;
use dc_scene::{Machine, history_is_of_the_machine};
use dc_stage::{Pass, Stage};
use std::sync::Wait;

/// Takes the script as soon as no other actor has it.
fn take_script_up<R: Wait>(
    rt: &R,
    stage: &Stage<Machine<EitherKernel>>,
    pass: &mut Pass<Machine<EitherKernel>>,
    polls: u32,
) -> ScriptHand
    requires opened { IsOpened stage.now }
    requires stage { IsOf pass.old stage.now }
    requires actor { pass.old.actor ≡ stage.now.scene.settings.cores }
    requires free { pass.old.holds ≡ [] }
    requires polls { polls ≤ most_polls }
    ensures hand { HoldsScript stage.now pass.new result × (result.polls ≡ polls) }
    ensures on { GoesOn pass.old pass.new }
    ensures mine { own pass.old.actor pass.new.seen ≡ own pass.old.actor pass.old.seen }
{
    let backoff = Backoff::new();
    for _ in rt.forever() {
        if let Ok(hand) = gather_script(stage, pass, polls) {
            return hand;
        }
        backoff.snooze();
    }
    unreachable!()
}

/// Sees all entries, and tells how many there are. The hand and the log stay.
fn look_on(
    stage: &Stage<Machine<EitherKernel>>,
    pass: &mut Pass<Machine<EitherKernel>>,
    log: &ActorLog,
    hand: &ScriptHand,
) -> u64
    requires opened { IsOpened stage.now }
    requires stage { IsOf pass.old stage.now }
    requires work { WorksScript stage.now pass.old log.now hand.now }
    ensures work { WorksScript stage.now pass.new log.now hand.now }
    ensures on { GoesOn pass.old pass.new }
    ensures count { result ≡ length pass.new.seen }
{
    history_is_of_the_machine::<EitherKernel>();
    logs_stay();
    stage.look(pass)
}

/// Whether each core found nothing to do in a history of this length.
fn are_quiet(flags: &Flags, cores: u32, length: u64) -> bool {
    for c in 0..cores {
        if !flags.is_quiet(c, length) {
            return false;
        }
    }
    true
}

/// Whether the script stands at an await whose next poll is the last, before which the cores rest.
fn awaits_last(hand: &ScriptHand) -> bool
    ensures { IsTrue result ↔ AwaitsLast hand.now }
{
    match hand.line(hand.place()) {
        Some(ScriptLine::Await(_, _, limit)) => limit == 0 || limit - 1 <= hand.polls(),
        _ => false,
    }
}

/// Whether every command is finished and every raise is made.
fn is_answered(hand: &ScriptHand) -> bool {
    hand.is_over() && hand.next_raise().is_none()
}

/// How the script goes on after a turn.
#[derive(Clone, Copy, Debug, PartialEq, Eq)]
enum Next {
    /// It may have more to do.
    Goes,
    /// It waits for the cores.
    Waits,
    /// It ends its turns, and the cores are to rest.
    Ends,
}

/// The turn of the command, where no raise can be made. Where all cores are quiet, the console of an await is polled as often as may be but for the last time.
fn command_turn(
    stage: &Stage<Machine<EitherKernel>>,
    flags: &Flags,
    pass: &mut Pass<Machine<EitherKernel>>,
    log: &mut ActorLog,
    hand: &mut ScriptHand,
    length: u64,
) -> Next
    requires opened { IsOpened stage.now }
    requires stage { IsOf pass.old stage.now }
    requires work { WorksScript stage.now pass.old log.old hand.old }
    ensures work { WorksScript stage.now pass.new log.new hand.new }
    ensures on { GoesOn pass.old pass.new }
    ensures log { GrowsQuietly log.old log.new }
{
    let quiet = are_quiet(flags, stage.scene().settings.cores(), length);
    let most = if quiet { u32::MAX } else { 1 };
    match poll_script(stage, pass, log, hand, most) {
        Went::Did => Next::Goes,
        Went::Busy => Next::Waits,
        Went::InVain => Next::Waits,
        Went::Full => Next::Ends,
    }
}

/// One turn of the script: its next raise where one may be made, and else its command. The turns end where the script is answered, before the last poll of an
/// await, and where a log is full.
fn turn_script(
    stage: &Stage<Machine<EitherKernel>>,
    flags: &Flags,
    pass: &mut Pass<Machine<EitherKernel>>,
    log: &mut ActorLog,
    hand: &mut ScriptHand,
    length: u64,
) -> Next
    requires opened { IsOpened stage.now }
    requires stage { IsOf pass.old stage.now }
    requires work { WorksScript stage.now pass.old log.old hand.old }
    ensures work { WorksScript stage.now pass.new log.new hand.new }
    ensures on { GoesOn pass.old pass.new }
    ensures log { GrowsQuietly log.old log.new }
{
    match raise_script(stage, pass, log, hand) {
        Went::Did => Next::Goes,
        Went::Busy => Next::Waits,
        Went::InVain => {
            if flags.is_full() || is_answered(hand) || awaits_last(hand) {
                Next::Ends
            } else {
                command_turn(stage, flags, pass, log, hand, length)
            }
        }
        Went::Full => Next::Ends,
    }
}

/// The script's turns, and between them those of the cores that have no thread, until the cores are to rest.
fn go_on<R: Wait, G: Gate>(
    rt: &R,
    gate: &G,
    stage: &Stage<Machine<EitherKernel>>,
    flags: &Flags,
    pass: &mut Pass<Machine<EitherKernel>>,
    log: &mut ActorLog,
    hand: &mut ScriptHand,
    started: &mut Vec<Started>,
)
    requires opened { IsOpened stage.now }
    requires stage { IsOf pass.old stage.now }
    requires work { WorksScript stage.now pass.old log.old hand.old }
    requires started { (seats : List Seated) × AllOf (IsCoreSeat stage.now) seats × Pairs (IsStarted stage.now) seats started.old.items }
    ensures work { WorksScript stage.now pass.new log.new hand.new }
    ensures on { GoesOn pass.old pass.new }
    ensures log { GrowsQuietly log.old log.new }
    ensures started { (seats : List Seated) → Pairs (IsStarted stage.now) seats started.old.items → Pairs (IsStarted stage.now) seats started.new.items }
    ensures room { vec_capacity started.new ≡ vec_capacity started.old }
{
    let backoff = Backoff::new();
    for _ in rt.forever() {
        turn_all_here(gate, stage, flags, started);
        let length = look_on(stage, pass, log, hand);
        match turn_script(stage, flags, pass, log, hand, length) {
            Next::Goes => backoff.reset(),
            Next::Waits => backoff.snooze(),
            Next::Ends => return,
        }
    }
    unreachable!()
}

/// The script's turns, and those of the cores that have no thread, until the cores are to rest. So many polls were made of the command at the script's place,
/// and the result tells how many there are then. No await ends here whose console has too few words.
pub(crate) fn script_work<R: Wait, G: Gate>(
    rt: &R,
    gate: &G,
    stage: &Stage<Machine<EitherKernel>>,
    flags: &Flags,
    script: Seat,
    polls: u32,
    started: &mut Vec<Started>,
) -> (Seat, u32)
    requires opened { IsOpened stage.now }
    requires script { IsScriptSeat stage.now script }
    requires polls { polls ≤ most_polls }
    requires started { (seats : List Seated) × AllOf (IsCoreSeat stage.now) seats × Pairs (IsStarted stage.now) seats started.old.items }
    ensures script { IsLaterSeat stage.now script result.0 }
    ensures log { GrowsQuietly script.log result.0.log }
    ensures polls { result.1 ≤ most_polls }
    ensures started { (seats : List Seated) → Pairs (IsStarted stage.now) seats started.old.items → Pairs (IsStarted stage.now) seats started.new.items }
    ensures room { vec_capacity started.new ≡ vec_capacity started.old }
{
    logs_stay();
    let mut script = script;
    let mut hand = take_script_up(rt, stage, &mut script.pass, polls);
    go_on(
        rt,
        gate,
        stage,
        flags,
        &mut script.pass,
        &mut script.log,
        &mut hand,
        started,
    );
    let polls = stow_script(stage, &mut script.pass, hand);
    (script, polls)
}
