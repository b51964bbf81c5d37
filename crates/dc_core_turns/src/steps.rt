//! Step: a slice of the first runnable block of a core in hand, or idle until the first timer is due.

ghost use Rattle.std.specs.Prelude.{◌≡◌, ◌<◌, ◌^◌, [], Some, None, true, length};
ghost use Rattle.dc_base.specs.declared.actions.Action.TheVariants as action;
ghost use Rattle.dc_base.specs.declared.actions.Actor.TheVariants as actor;
ghost use Rattle.dc_base.specs.States.{Block};
ghost use Rattle.dc_stage.specs.History.{own};
ghost use Rattle.dc_stage.specs.Passes.{IsOf};
ghost use Rattle.dc_kernel.specs.Begins.{halfway_in, need_in};
ghost use Rattle.dc_objects.specs.Blocks.{running_of};
ghost use Rattle.dc_bodies.specs.declared.nexts.Next.TheVariants as next;
ghost use Rattle.dc_bodies.specs.InHand.{looked_in};
ghost use Rattle.dc_bodies.specs.Nexts.{IsNext};
ghost use Rattle.dc_bodies.specs.Stops.{stopped};
ghost use Rattle.dc_hands.specs.Answers.{AnswersTurn, IsNoEntry};
ghost use Rattle.dc_core_turns.specs.Beside.{HoldsBeside};
ghost use Rattle.dc_core_turns.specs.Beyond.{HasOutside, needed_here};
ghost use Rattle.dc_hands.specs.Hands.{HoldsCore};
ghost use Rattle.dc_hands.specs.Holding.{GoesOn};
ghost use Rattle.dc_hands.specs.Machines.{IsOpened};
ghost use Rattle.dc_hands.specs.Rows.{in_row};
ghost use Rattle.dc_core_turns.specs.Turning.{TakesTurn};

use crate::lending::{need_in_row, slice_in_row};
use crate::outsides::{put_outside, take_outside};
use crate::stops::stop_of;
use dc_base::calls::Need;
use dc_base::entries::Reason;
use dc_base::numbers::BlockNo;
use dc_bodies::{Next, idle_held, next_of};
use dc_calls::Outside;
use dc_hands::{CoreHand, Turned, commit};
use dc_kernel::Driver;
use dc_scene::Machine;
use dc_stage::{Pass, Stage};

/// The core idles until its clock stands so.
fn idle<D: Driver>(
    stage: &Stage<Machine<D>>,
    pass: &mut Pass<Machine<D>>,
    hand: &mut CoreHand<D>,
    clock: u64,
) -> Turned
    requires opened { IsOpened stage.now }
    requires stage { IsOf pass.old stage.now }
    requires hand { HoldsBeside stage.now pass.old hand.old [] }
    requires acts { stopped hand.old.core ≡ None }
    requires next { IsNext hand.old.core (looked_in (in_row hand.old.row) hand.old.core.share) (next.Idle clock) }
    requires room { length (own pass.old.actor pass.old.seen) < 2 ^ 56 }
    ensures { TakesTurn stage.now pass.old pass.new hand.old hand.new [] action.Step result }
{
    let entry = idle_held(&mut hand.core, hand.number, clock);
    let ticket = commit(stage, pass, &entry);
    Turned::Did { entry, ticket }
}

/// A slice of block `b`, with the object that its call needs.
fn slice_with<D: Driver>(
    stage: &Stage<Machine<D>>,
    pass: &mut Pass<Machine<D>>,
    hand: &mut CoreHand<D>,
    b: BlockNo,
    need: Need,
    outside: &mut Outside,
) -> Turned
    requires opened { IsOpened stage.now }
    requires stage { IsOf pass.old stage.now }
    requires hand { HoldsBeside stage.now pass.old hand.old (needed_here stage.now b.0 need) }
    requires acts { stopped hand.old.core ≡ None }
    requires next { IsNext hand.old.core (looked_in (in_row hand.old.row) hand.old.core.share) (next.Slice b) }
    requires need { (x : Block) → in_row hand.old.row b.0 ≡ Some x →
        need ≡ need_in (halfway_in hand.old.core.settings.quantum hand.old.core.clock (running_of x)) }
    requires outside { HasOutside stage.now pass.old b.0 need outside.old }
    requires room { length (own pass.old.actor pass.old.seen) < 2 ^ 56 }
    ensures turn { TakesTurn stage.now pass.old pass.new hand.old hand.new (needed_here stage.now b.0 need) action.Step result }
    ensures outside { HasOutside stage.now pass.new b.0 need outside.new }
{
    let entry = slice_in_row(&mut hand.core, &mut hand.row, hand.number, b, outside);
    let ticket = commit(stage, pass, &entry);
    Turned::Did { entry, ticket }
}

/// A slice of block `b`, if the object is free that its call needs.
fn slice<D: Driver>(
    stage: &Stage<Machine<D>>,
    pass: &mut Pass<Machine<D>>,
    hand: &mut CoreHand<D>,
    b: BlockNo,
) -> Turned
    requires opened { IsOpened stage.now }
    requires stage { IsOf pass.old stage.now }
    requires hand { HoldsBeside stage.now pass.old hand.old [] }
    requires acts { stopped hand.old.core ≡ None }
    requires next { IsNext hand.old.core (looked_in (in_row hand.old.row) hand.old.core.share) (next.Slice b) }
    requires room { length (own pass.old.actor pass.old.seen) < 2 ^ 56 }
    ensures { TakesTurn stage.now pass.old pass.new hand.old hand.new [] action.Step result }
{
    let need = need_in_row(&hand.core, &hand.row, b);
    let mut outside = match take_outside(stage, pass, b, need) {
        Ok(outside) => outside,
        Err(busy) => return Turned::Busy(busy),
    };
    let turned = slice_with(stage, pass, hand, b, need, &mut outside);
    put_outside(stage, pass, b, need, outside);
    turned
}

/// The core's step.
pub(crate) fn step_turn<D: Driver>(
    stage: &Stage<Machine<D>>,
    pass: &mut Pass<Machine<D>>,
    hand: &mut CoreHand<D>,
) -> Turned
    requires opened { IsOpened stage.now }
    requires stage { IsOf pass.old stage.now }
    requires hand { HoldsCore stage.now pass.old hand.old }
    requires room { length (own pass.old.actor pass.old.seen) < 2 ^ 56 }
    ensures hand { HoldsCore stage.now pass.new hand.new }
    ensures number { hand.new.number ≡ hand.old.number }
    ensures on { GoesOn pass.old pass.new }
    ensures turn { AnswersTurn stage.now pass.old pass.new 0 (actor.Core hand.old.number) action.Step result }
    ensures same { IsNoEntry result → hand.new ≡ hand.old }
{
    if let Some(stop) = stop_of(&hand.core) {
        return stop;
    }
    match next_of(&hand.core, &hand.row) {
        Next::Nothing => Turned::NotEnabled(Reason::Nothing),
        Next::Idle(clock) => idle(stage, pass, hand, clock),
        Next::Slice(block) => slice(stage, pass, hand, block),
    }
}
