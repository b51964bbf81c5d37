//! A core goes on.

ghost use Rattle.std.specs.Prelude.{◌≡◌, ◌<◌, ◌^◌, length};
ghost use Rattle.dc_base.specs.declared.actions.Action.TheVariants as action;
ghost use Rattle.dc_base.specs.declared.actions.Actor.TheVariants as actor;
ghost use Rattle.dc_base.specs.declared.commands.Order.TheVariants as order;
ghost use Rattle.dc_base.specs.States.{order as ordered};
ghost use Rattle.dc_stage.specs.History.{own};
ghost use Rattle.dc_stage.specs.Passes.{IsOf};
ghost use Rattle.dc_hands.specs.Answers.{AnswersTurn, IsNoEntry};
ghost use Rattle.dc_hands.specs.Hands.{HoldsCore};
ghost use Rattle.dc_hands.specs.Holding.{GoesOn};
ghost use Rattle.dc_hands.specs.Machines.{IsOpened};
ghost use Rattle.dc_core_turns.specs.Ordering.{HoldsPosted};

use crate::acknowledging::acknowledge;
use dc_base::kernels::Version;
use dc_bodies::start_held;
use dc_hands::{CoreHand, Turned};
use dc_kernel::Driver;
use dc_objects::Mailbox;
use dc_scene::Machine;
use dc_stage::{Pass, Stage};

/// The core goes on with this version.
pub(crate) fn start_turn<D: Driver>(
    stage: &Stage<Machine<D>>,
    pass: &mut Pass<Machine<D>>,
    hand: &mut CoreHand<D>,
    mailbox: Mailbox,
    v: Version,
) -> Turned
    requires opened { IsOpened stage.now }
    requires stage { IsOf pass.old stage.now }
    requires room { length (own pass.old.actor pass.old.seen) < 2 ^ 56 }
    requires hand { HoldsPosted stage.now pass.old hand.old mailbox }
    requires order { mailbox ≡ ordered (order.Start v) }
    ensures hand { HoldsCore stage.now pass.new hand.new }
    ensures number { hand.new.number ≡ hand.old.number }
    ensures on { GoesOn pass.old pass.new }
    ensures turn { AnswersTurn stage.now pass.old pass.new 0 (actor.Core hand.old.number) action.Order result }
    ensures same { IsNoEntry result → hand.new ≡ hand.old }
{
    let mut mailbox = mailbox;
    let entry = start_held(&mut hand.core, &mut mailbox, hand.number, v);
    acknowledge(stage, pass, hand.number, mailbox, entry)
}
