//! Order: the core carries out what its mailbox holds.

ghost use Rattle.std.specs.Prelude.{◌≡◌, ◌<◌, ◌^◌, true, length};
ghost use Rattle.dc_base.specs.declared.actions.Action.TheVariants as action;
ghost use Rattle.dc_base.specs.declared.actions.Actor.TheVariants as actor;
ghost use Rattle.dc_base.specs.declared.kernels.Version.TheVariants.{Rr, Edf};
ghost use Rattle.dc_stage.specs.History.{own};
ghost use Rattle.dc_stage.specs.Passes.{IsOf};
ghost use Rattle.dc_hands.specs.Answers.{AnswersTurn, IsNoEntry};
ghost use Rattle.dc_hands.specs.Hands.{HoldsCore};
ghost use Rattle.dc_hands.specs.Holding.{GoesOn};
ghost use Rattle.dc_hands.specs.Machines.{IsOpened};
ghost use Rattle.dc_core_turns.specs.Ordering.{HoldsPosted};

use crate::adoptions::adopt_turn;
use crate::releases::release_turn;
use crate::replacements::replace_turn;
use crate::shutdowns::stop_turn;
use crate::starts::start_turn;
use dc_base::commands::Order;
use dc_bodies::order_of;
use dc_hands::{CoreHand, Turned, put_mailbox, take_mailbox};
use dc_kernel::Driver;
use dc_objects::Mailbox;
use dc_scene::Machine;
use dc_stage::{Pass, Stage};

/// The core carries out the order in the mailbox, if there is one.
fn posted_turn<D: Driver>(
    stage: &Stage<Machine<D>>,
    pass: &mut Pass<Machine<D>>,
    hand: &mut CoreHand<D>,
    mailbox: Mailbox,
) -> Turned
    requires opened { IsOpened stage.now }
    requires stage { IsOf pass.old stage.now }
    requires room { length (own pass.old.actor pass.old.seen) < 2 ^ 56 }
    requires hand { HoldsPosted stage.now pass.old hand.old mailbox }
    requires first { D.served Rr ≡ true }
    requires second { D.served Edf ≡ true }
    ensures hand { HoldsCore stage.now pass.new hand.new }
    ensures number { hand.new.number ≡ hand.old.number }
    ensures on { GoesOn pass.old pass.new }
    ensures turn { AnswersTurn stage.now pass.old pass.new 0 (actor.Core hand.old.number) action.Order result }
    ensures same { IsNoEntry result → hand.new ≡ hand.old }
{
    let order = match order_of(&mailbox) {
        Ok(order) => order,
        Err(why) => {
            put_mailbox(stage, pass, hand.number, mailbox);
            return Turned::NotEnabled(why);
        }
    };
    match order {
        Order::Start(v) => start_turn(stage, pass, hand, mailbox, v),
        Order::Stop => stop_turn(stage, pass, hand, mailbox),
        Order::Replace(v) => replace_turn(stage, pass, hand, mailbox, v),
        Order::Adopt { block, parked } => adopt_turn(stage, pass, hand, mailbox, block, parked),
        Order::Release(block) => release_turn(stage, pass, hand, mailbox, block),
    }
}

/// The core takes its mailbox, and carries out the order in it.
pub(crate) fn order_turn<D: Driver>(
    stage: &Stage<Machine<D>>,
    pass: &mut Pass<Machine<D>>,
    hand: &mut CoreHand<D>,
) -> Turned
    requires opened { IsOpened stage.now }
    requires stage { IsOf pass.old stage.now }
    requires room { length (own pass.old.actor pass.old.seen) < 2 ^ 56 }
    requires hand { HoldsCore stage.now pass.old hand.old }
    requires first { D.served Rr ≡ true }
    requires second { D.served Edf ≡ true }
    ensures hand { HoldsCore stage.now pass.new hand.new }
    ensures number { hand.new.number ≡ hand.old.number }
    ensures on { GoesOn pass.old pass.new }
    ensures turn { AnswersTurn stage.now pass.old pass.new 0 (actor.Core hand.old.number) action.Order result }
    ensures same { IsNoEntry result → hand.new ≡ hand.old }
{
    match take_mailbox(stage, pass, hand.number) {
        Ok(mailbox) => posted_turn(stage, pass, hand, mailbox),
        Err(busy) => Turned::Busy(busy),
    }
}
