//! One action of the script at work, whose entry goes into its log.
ghost use Rattle.std.specs.Prelude.{◌≡◌, ◌<◌, length};
ghost use Rattle.dc_base.specs.declared.actions.Action.TheVariants as action;
ghost use Rattle.dc_base.specs.declared.actions.Actor.TheVariants as actor;
ghost use Rattle.dc_hands.specs.Answers.{AnswersTurn};
ghost use Rattle.dc_hands.specs.Holding.{GoesOn};
ghost use Rattle.dc_hands.specs.Machines.{IsOpened};
ghost use Rattle.dc_rounds.specs.Working.{IsNoDid};
ghost use Rattle.dc_crew.specs.ScriptWorks.{Answered, GrowsQuietly, IsFull, IsNoted, IsNoUnmetTurn, WorksScript};
ghost use Rattle.dc_script_turns.specs.Scripting.{AnswersPolls};
ghost use Rattle.dc_stage.specs.Passes.{IsOf};

use dc_base::actions::Action;
use dc_base::numbers::Ticket;
use dc_hands::{ScriptHand, Turned};
use dc_journal::Logged;
use dc_kernel::Driver;
use dc_logs::{ActorLog, logs_are_counted, logs_grow, logs_stay};
use dc_rounds::Went;
use dc_scene::Machine;
use dc_script_turns::{poll_on, script_turn};
use dc_stage::{Pass, Stage};

/// The entry of a turn goes into the log, which has room for it.
fn note(log: &mut ActorLog, turned: Turned) -> Went
    requires room { length log.old.entries < log.old.room }
    requires quiet { IsNoUnmetTurn turned }
    ensures noted { IsNoted turned log.old log.new result }
    ensures grows { GrowsQuietly log.old log.new }
    ensures short { IsFull result → ⊥ }
{
    match turned {
        Turned::Did { entry, ticket } => {
            log.push(Logged {
                ticket: Ticket(ticket.0),
                entry,
            });
            Went::Did
        }
        Turned::NotEnabled(_) => Went::InVain,
        Turned::Spent => Went::InVain,
        Turned::Busy(_) => Went::Busy,
    }
}

/// The script's next raise, unless its log is full.
pub(crate) fn raise_script<D: Driver>(
    stage: &Stage<Machine<D>>,
    pass: &mut Pass<Machine<D>>,
    log: &mut ActorLog,
    hand: &mut ScriptHand,
) -> Went
    requires opened { IsOpened stage.now }
    requires stage { IsOf pass.old stage.now }
    requires work { WorksScript stage.now pass.old log.old hand.old }
    ensures work { WorksScript stage.now pass.new log.new hand.new }
    ensures on { GoesOn pass.old pass.new }
    ensures log { GrowsQuietly log.old log.new }
    ensures turn { (IsFull result → ⊥) → Answered (AnswersTurn stage.now pass.old pass.new hand.old.polls actor.Script action.Raise) log.old log.new result }
    ensures full { IsFull result → (log.new ≡ log.old) × (length log.old.entries ≡ log.old.room) × (pass.new ≡ pass.old) × (hand.new ≡ hand.old) }
    ensures same { IsNoDid result → hand.new.script ≡ hand.old.script }
{
    logs_are_counted();
    logs_stay();
    logs_grow();
    if log.is_full() {
        return Went::Full;
    }
    let turned = script_turn(stage, pass, hand, &Action::Raise);
    note(log, turned)
}

/// The command at the script's place goes on, unless its log is full. The console of an await is polled at most so many times, and never for the last time.
pub(crate) fn poll_script<D: Driver>(
    stage: &Stage<Machine<D>>,
    pass: &mut Pass<Machine<D>>,
    log: &mut ActorLog,
    hand: &mut ScriptHand,
    most: u32,
) -> Went
    requires opened { IsOpened stage.now }
    requires stage { IsOf pass.old stage.now }
    requires work { WorksScript stage.now pass.old log.old hand.old }
    ensures work { WorksScript stage.now pass.new log.new hand.new }
    ensures on { GoesOn pass.old pass.new }
    ensures log { GrowsQuietly log.old log.new }
    ensures turn { (IsFull result → ⊥) → Answered (AnswersPolls stage.now pass.old pass.new hand.old hand.new most) log.old log.new result }
    ensures full { IsFull result → (log.new ≡ log.old) × (length log.old.entries ≡ log.old.room) × (pass.new ≡ pass.old) × (hand.new ≡ hand.old) }
    ensures same { IsNoDid result → hand.new.script ≡ hand.old.script }
{
    logs_are_counted();
    logs_stay();
    logs_grow();
    if log.is_full() {
        return Went::Full;
    }
    let turned = poll_on(stage, pass, hand, most);
    note(log, turned)
}
