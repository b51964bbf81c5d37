//! One action of a core at work, whose entry goes into its log.

ghost use Rattle.std.specs.Prelude.{◌≡◌, true};
ghost use Rattle.dc_base.specs.declared.actions.Actor.TheVariants as actor;
ghost use Rattle.dc_base.specs.declared.kernels.Version.TheVariants.{Rr, Edf};
ghost use Rattle.dc_base.specs.Valid.{IsActionOf};
ghost use Rattle.dc_stage.specs.Passes.{IsOf};
ghost use Rattle.dc_hands.specs.Holding.{GoesOn};
ghost use Rattle.dc_hands.specs.Machines.{IsOpened};
ghost use Rattle.dc_rounds.specs.Working.{IsNoDid, WentAt, WorksCore};

use dc_base::actions::Action;
use dc_base::numbers::Ticket;
use dc_core_turns::core_turn;
use dc_hands::{CoreHand, Turned};
use dc_journal::Logged;
use dc_kernel::Driver;
use dc_logs::{ActorLog, logs_are_counted, logs_grow, logs_stay};
use dc_scene::Machine;
use dc_stage::{Pass, Stage};

/// What became of an action: its entry is in the log, or there was none, or another actor had an object, or the log is full.
#[derive(Clone, Copy, Debug, PartialEq, Eq)]
pub enum Went {
    Did,
    InVain,
    Busy,
    Full,
}

/// A core's action, unless its log is full.
pub fn act<D: Driver>(
    stage: &Stage<Machine<D>>,
    pass: &mut Pass<Machine<D>>,
    log: &mut ActorLog,
    hand: &mut CoreHand<D>,
    action: &Action,
) -> Went
    requires opened { IsOpened stage.now }
    requires stage { IsOf pass.old stage.now }
    requires work { WorksCore stage.now pass.old log.old hand.old }
    requires action { IsActionOf stage.now.scene.settings (actor.Core hand.old.number) action.now }
    requires first { D.served Rr ≡ true }
    requires second { D.served Edf ≡ true }
    ensures work { WorksCore stage.now pass.new log.new hand.new }
    ensures number { hand.new.number ≡ hand.old.number }
    ensures on { GoesOn pass.old pass.new }
    ensures room { log.new.room ≡ log.old.room }
    ensures same { IsNoDid result → (hand.new ≡ hand.old) × (log.new ≡ log.old) }
    ensures went { WentAt stage.now pass.old pass.new log.old log.new hand.new.number.0 action.now result }
{
    logs_are_counted();
    logs_stay();
    logs_grow();
    if log.is_full() {
        return Went::Full;
    }
    match core_turn(stage, pass, hand, action) {
        Turned::Did { entry, ticket } => {
            log.push(Logged {
                ticket: Ticket(ticket.0),
                entry,
            });
            Went::Did
        }
        Turned::NotEnabled(_) => Went::InVain,
        Turned::Spent => Went::InVain,
        Turned::Busy(_) => Went::Busy,
    }
}
