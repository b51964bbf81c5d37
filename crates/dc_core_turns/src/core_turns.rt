//! A turn of a core.

ghost use Rattle.std.specs.Prelude.{◌≡◌, ◌<◌, ◌^◌, true, length};
ghost use Rattle.dc_base.specs.declared.actions.Actor.TheVariants as actor;
ghost use Rattle.dc_base.specs.declared.kernels.Version.TheVariants.{Rr, Edf};
ghost use Rattle.dc_base.specs.Valid.{IsActionOf};
ghost use Rattle.dc_stage.specs.History.{own};
ghost use Rattle.dc_stage.specs.Passes.{IsOf};
ghost use Rattle.dc_hands.specs.Answers.{AnswersTurn, IsNoEntry};
ghost use Rattle.dc_hands.specs.Hands.{HoldsCore};
ghost use Rattle.dc_hands.specs.Holding.{GoesOn};
ghost use Rattle.dc_hands.specs.Machines.{IsOpened};

use crate::intakes::intake_turn;
use crate::orders::order_turn;
use crate::steps::step_turn;
use crate::wakes::wake_turn;
use dc_base::actions::Action;
use dc_base::entries::Reason;
use dc_hands::{CoreHand, Turned};
use dc_kernel::Driver;
use dc_scene::Machine;
use dc_stage::{Pass, Stage};

/// The core in the hand takes an action, if it is enabled and no other actor has what it needs.
pub fn core_turn<D: Driver>(
    stage: &Stage<Machine<D>>,
    pass: &mut Pass<Machine<D>>,
    hand: &mut CoreHand<D>,
    action: &Action,
) -> Turned
    requires opened { IsOpened stage.now }
    requires stage { IsOf pass.old stage.now }
    requires hand { HoldsCore stage.now pass.old hand.old }
    requires room { length (own pass.old.actor pass.old.seen) < 2 ^ 56 }
    requires action { IsActionOf stage.now.scene.settings (actor.Core hand.old.number) action.now }
    requires first { D.served Rr ≡ true }
    requires second { D.served Edf ≡ true }
    ensures hand { HoldsCore stage.now pass.new hand.new }
    ensures number { hand.new.number ≡ hand.old.number }
    ensures on { GoesOn pass.old pass.new }
    ensures turn { AnswersTurn stage.now pass.old pass.new 0 (actor.Core hand.old.number) action.now result }
    ensures same { IsNoEntry result → hand.new ≡ hand.old }
{
    match *action {
        Action::Step => step_turn(stage, pass, hand),
        Action::Order => order_turn(stage, pass, hand),
        Action::Intake(l) => intake_turn(stage, pass, hand, l),
        Action::Wake(b, d) => wake_turn(stage, pass, hand, b, d),
        Action::Script => Turned::NotEnabled(Reason::ScriptEnded),
        Action::Raise => Turned::NotEnabled(Reason::NoRaise),
    }
}
