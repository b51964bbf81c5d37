//! Wake: a dispatcher of a core in hand that waits on a channel goes on.

ghost use Rattle.std.specs.Prelude.{◌≡◌, ◌<◌, ◌^◌, [], ◌∷◌, Some, None, true, length, slice_get};
ghost use Rattle.dc_base.specs.declared.actions.Action.TheVariants as action;
ghost use Rattle.dc_base.specs.declared.actions.Actor.TheVariants as actor;
ghost use Rattle.dc_base.specs.Changes.{a_channel, channel};
ghost use Rattle.dc_base.specs.Outcomes.{has as in_share};
ghost use Rattle.dc_base.specs.States.{Block};
ghost use Rattle.dc_stage.specs.History.{own};
ghost use Rattle.dc_stage.specs.Passes.{IsOf};
ghost use Rattle.dc_bodies.specs.Stops.{stopped};
ghost use Rattle.dc_bodies.specs.Waits.{channel_of, channel_wait, goes_on};
ghost use Rattle.dc_bodies.specs.Woken.{CanWake};
ghost use Rattle.dc_hands.specs.Answers.{AnswersTurn, IsNoEntry};
ghost use Rattle.dc_core_turns.specs.Beside.{HoldsBeside};
ghost use Rattle.dc_hands.specs.Hands.{HoldsCore};
ghost use Rattle.dc_hands.specs.Holding.{GoesOn, Has};
ghost use Rattle.dc_hands.specs.Machines.{IsOpened};
ghost use Rattle.dc_hands.specs.Rows.{in_row};
ghost use Rattle.dc_core_turns.specs.Turning.{TakesTurn};

use crate::lending::{wait_in_row, wake_in_row};
use crate::stops::stop_of;
use dc_base::entries::Reason;
use dc_base::numbers::{BlockNo, DispNo};
use dc_bodies::{ChannelWait, channel_of, goes_on};
use dc_channel::Channel;
use dc_hands::{CoreHand, Turned, commit, put_channel, take_channel};
use dc_kernel::Driver;
use dc_scene::Machine;
use dc_stage::{Pass, Stage};

/// Dispatcher `d`, which goes on where it waits, is ready again.
fn wake<D: Driver>(
    stage: &Stage<Machine<D>>,
    pass: &mut Pass<Machine<D>>,
    hand: &mut CoreHand<D>,
    b: BlockNo,
    d: DispNo,
    wait: ChannelWait,
    waited: &Channel,
) -> Turned
    requires opened { IsOpened stage.now }
    requires stage { IsOf pass.old stage.now }
    requires hand { HoldsBeside stage.now pass.old hand.old (a_channel (channel_of wait).0 ∷ []) }
    requires channel { Has stage.now pass.old (a_channel (channel_of wait).0) (channel waited.now) }
    requires block { (x : Block) × (in_row hand.old.row b.0 ≡ Some x) × CanWake hand.old.core b.0 d.0 x wait waited.now }
    requires room { length (own pass.old.actor pass.old.seen) < 2 ^ 56 }
    ensures turn { TakesTurn stage.now pass.old pass.new hand.old hand.new (a_channel (channel_of wait).0 ∷ []) (action.Wake b d) result }
    ensures channel { Has stage.now pass.new (a_channel (channel_of wait).0) (channel waited.now) }
{
    let entry = wake_in_row(&mut hand.core, &mut hand.row, hand.number, b, d);
    let ticket = commit(stage, pass, &entry);
    Turned::Did { entry, ticket }
}

/// Dispatcher `d`, which waits on the channel, goes on if it can.
fn wake_on<D: Driver>(
    stage: &Stage<Machine<D>>,
    pass: &mut Pass<Machine<D>>,
    hand: &mut CoreHand<D>,
    b: BlockNo,
    d: DispNo,
    wait: ChannelWait,
    waited: &Channel,
) -> Turned
    requires opened { IsOpened stage.now }
    requires stage { IsOf pass.old stage.now }
    requires hand { HoldsBeside stage.now pass.old hand.old (a_channel (channel_of wait).0 ∷ []) }
    requires channel { Has stage.now pass.old (a_channel (channel_of wait).0) (channel waited.now) }
    requires acts { stopped hand.old.core ≡ None }
    requires here { in_share hand.old.core.share b.0 ≡ true }
    requires block { (x : Block) × (in_row hand.old.row b.0 ≡ Some x) × (channel_wait (slice_get x.control.states d.0) ≡ Some wait) }
    requires room { length (own pass.old.actor pass.old.seen) < 2 ^ 56 }
    ensures turn { TakesTurn stage.now pass.old pass.new hand.old hand.new (a_channel (channel_of wait).0 ∷ []) (action.Wake b d) result }
    ensures channel { Has stage.now pass.new (a_channel (channel_of wait).0) (channel waited.now) }
{
    if goes_on(wait, waited) {
        wake(stage, pass, hand, b, d, wait, waited)
    } else {
        Turned::NotEnabled(Reason::StillWaits)
    }
}

/// The same, of a dispatcher that waits on a channel.
fn wake_waiting<D: Driver>(
    stage: &Stage<Machine<D>>,
    pass: &mut Pass<Machine<D>>,
    hand: &mut CoreHand<D>,
    b: BlockNo,
    d: DispNo,
    wait: ChannelWait,
) -> Turned
    requires opened { IsOpened stage.now }
    requires stage { IsOf pass.old stage.now }
    requires hand { HoldsBeside stage.now pass.old hand.old [] }
    requires acts { stopped hand.old.core ≡ None }
    requires here { in_share hand.old.core.share b.0 ≡ true }
    requires block { (x : Block) × (in_row hand.old.row b.0 ≡ Some x) × (channel_wait (slice_get x.control.states d.0) ≡ Some wait) }
    requires room { length (own pass.old.actor pass.old.seen) < 2 ^ 56 }
    ensures { TakesTurn stage.now pass.old pass.new hand.old hand.new [] (action.Wake b d) result }
{
    let x = channel_of(wait);
    let channel = match take_channel(stage, pass, x) {
        Ok(channel) => channel,
        Err(busy) => return Turned::Busy(busy),
    };
    let turned = wake_on(stage, pass, hand, b, d, wait, &channel);
    put_channel(stage, pass, x, channel);
    turned
}

/// The core wakes dispatcher `d` of block `b`, if it can go on.
pub(crate) fn wake_turn<D: Driver>(
    stage: &Stage<Machine<D>>,
    pass: &mut Pass<Machine<D>>,
    hand: &mut CoreHand<D>,
    b: BlockNo,
    d: DispNo,
) -> Turned
    requires opened { IsOpened stage.now }
    requires stage { IsOf pass.old stage.now }
    requires hand { HoldsCore stage.now pass.old hand.old }
    requires room { length (own pass.old.actor pass.old.seen) < 2 ^ 56 }
    requires block { b.0 < stage.now.scene.settings.blocks }
    ensures hand { HoldsCore stage.now pass.new hand.new }
    ensures number { hand.new.number ≡ hand.old.number }
    ensures on { GoesOn pass.old pass.new }
    ensures turn { AnswersTurn stage.now pass.old pass.new 0 (actor.Core hand.old.number) (action.Wake b d) result }
    ensures same { IsNoEntry result → hand.new ≡ hand.old }
{
    if let Some(stop) = stop_of(&hand.core) {
        return stop;
    }
    if !hand.core.share().contains(b) {
        return Turned::NotEnabled(Reason::NotHere { block: b });
    }
    match wait_in_row(&hand.row, b, d) {
        Some(wait) => wake_waiting(stage, pass, hand, b, d, wait),
        None => Turned::NotEnabled(Reason::NotWaiting),
    }
}
