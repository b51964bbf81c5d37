//! A block comes to a core.

ghost use Rattle.std.specs.Prelude.{◌≡◌, ◌<◌, ◌^◌, true, length};
ghost use Rattle.dc_base.specs.declared.actions.Action.TheVariants as action;
ghost use Rattle.dc_base.specs.declared.actions.Actor.TheVariants as actor;
ghost use Rattle.dc_base.specs.declared.commands.Order.TheVariants as order;
ghost use Rattle.dc_base.specs.declared.kernels.Version.TheVariants.{Rr, Edf};
ghost use Rattle.dc_base.specs.States.{order as ordered};
ghost use Rattle.dc_stage.specs.History.{own};
ghost use Rattle.dc_stage.specs.Passes.{IsOf};
ghost use Rattle.dc_hands.specs.Answers.{AnswersTurn, IsNoEntry};
ghost use Rattle.dc_hands.specs.Hands.{HoldsCore};
ghost use Rattle.dc_hands.specs.Holding.{GoesOn};
ghost use Rattle.dc_hands.specs.Machines.{IsOpened};
ghost use Rattle.dc_core_turns.specs.Ordering.{HoldsOffered, HoldsPosted};

use crate::acknowledging::acknowledge;
use dc_base::numbers::BlockNo;
use dc_bodies::adopt_held;
use dc_hands::{CoreHand, Turned, put_block, put_mailbox, take_block};
use dc_kernel::Driver;
use dc_objects::{BlockState, Mailbox};
use dc_scene::Machine;
use dc_stage::{Pass, Stage};

/// The core adopts a block that was taken, or the block and the mailbox go back.
fn adopt_taken<D: Driver>(
    stage: &Stage<Machine<D>>,
    pass: &mut Pass<Machine<D>>,
    hand: &mut CoreHand<D>,
    mailbox: Mailbox,
    block: BlockState<D>,
    b: BlockNo,
    parked: bool,
) -> Turned
    requires opened { IsOpened stage.now }
    requires stage { IsOf pass.old stage.now }
    requires room { length (own pass.old.actor pass.old.seen) < 2 ^ 56 }
    requires hand { HoldsOffered stage.now pass.old hand.old mailbox b.0 block }
    requires order { mailbox ≡ ordered (order.Adopt b parked) }
    requires first { D.served Rr ≡ true }
    requires second { D.served Edf ≡ true }
    ensures hand { HoldsCore stage.now pass.new hand.new }
    ensures number { hand.new.number ≡ hand.old.number }
    ensures on { GoesOn pass.old pass.new }
    ensures turn { AnswersTurn stage.now pass.old pass.new 0 (actor.Core hand.old.number) action.Order result }
    ensures same { IsNoEntry result → hand.new ≡ hand.old }
{
    let mut mailbox = mailbox;
    let mut block = block;
    let _ = (hand.core.share().len(), hand.row.len());
    match adopt_held(
        &mut hand.core,
        &mut block,
        &mut mailbox,
        hand.number,
        b,
        parked,
    ) {
        Ok(entry) => {
            hand.row.add(b, block);
            acknowledge(stage, pass, hand.number, mailbox, entry)
        }
        Err(why) => {
            put_block(stage, pass, b, block);
            put_mailbox(stage, pass, hand.number, mailbox);
            Turned::NotEnabled(why)
        }
    }
}

/// The core takes a block at rest and adopts it, as its home block or parked. Where another actor has the block, the mailbox goes back.
pub(crate) fn adopt_turn<D: Driver>(
    stage: &Stage<Machine<D>>,
    pass: &mut Pass<Machine<D>>,
    hand: &mut CoreHand<D>,
    mailbox: Mailbox,
    b: BlockNo,
    parked: bool,
) -> Turned
    requires opened { IsOpened stage.now }
    requires stage { IsOf pass.old stage.now }
    requires room { length (own pass.old.actor pass.old.seen) < 2 ^ 56 }
    requires hand { HoldsPosted stage.now pass.old hand.old mailbox }
    requires order { mailbox ≡ ordered (order.Adopt b parked) }
    requires first { D.served Rr ≡ true }
    requires second { D.served Edf ≡ true }
    ensures hand { HoldsCore stage.now pass.new hand.new }
    ensures number { hand.new.number ≡ hand.old.number }
    ensures on { GoesOn pass.old pass.new }
    ensures turn { AnswersTurn stage.now pass.old pass.new 0 (actor.Core hand.old.number) action.Order result }
    ensures same { IsNoEntry result → hand.new ≡ hand.old }
{
    match take_block(stage, pass, b) {
        Ok(block) => adopt_taken(stage, pass, hand, mailbox, block, b, parked),
        Err(busy) => {
            put_mailbox(stage, pass, hand.number, mailbox);
            Turned::Busy(busy)
        }
    }
}
