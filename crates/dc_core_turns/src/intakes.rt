//! Intake: the pending raise of a line reaches its signal, in a block of the core in hand.

ghost use Rattle.std.specs.Prelude.{◌≡◌, ◌<◌, ◌^◌, [], ◌∷◌, true, is_some, length};
ghost use Rattle.dc_base.specs.declared.actions.Action.TheVariants as action;
ghost use Rattle.dc_base.specs.declared.actions.Actor.TheVariants as actor;
ghost use Rattle.dc_base.specs.Changes.{a_line, wire};
ghost use Rattle.dc_stage.specs.History.{own};
ghost use Rattle.dc_stage.specs.Passes.{IsOf};
ghost use Rattle.dc_bodies.specs.Pendings.{IsPending};
ghost use Rattle.dc_hands.specs.Answers.{AnswersTurn, IsNoEntry};
ghost use Rattle.dc_core_turns.specs.Beside.{HoldsBeside};
ghost use Rattle.dc_hands.specs.Hands.{HoldsCore};
ghost use Rattle.dc_hands.specs.Holding.{GoesOn, Has};
ghost use Rattle.dc_hands.specs.Machines.{IsOpened};
ghost use Rattle.dc_core_turns.specs.Turning.{TakesTurn};

use crate::lending::take_in_row;
use dc_base::entries::Reason;
use dc_base::numbers::LineNo;
use dc_bodies::{Pending, raise_for};
use dc_hands::{CoreHand, Turned, commit, put_line, take_line};
use dc_kernel::Driver;
use dc_lines::Line;
use dc_scene::Machine;
use dc_stage::{Pass, Stage};

/// The pending raise of line `l` comes to its signal.
fn take_in<D: Driver>(
    stage: &Stage<Machine<D>>,
    pass: &mut Pass<Machine<D>>,
    hand: &mut CoreHand<D>,
    line: &mut Line,
    l: LineNo,
    p: Pending,
) -> Turned
    requires opened { IsOpened stage.now }
    requires stage { IsOf pass.old stage.now }
    requires hand { HoldsBeside stage.now pass.old hand.old (a_line l.0 ∷ []) }
    requires line { Has stage.now pass.old (a_line l.0) (wire line.old) }
    requires pending { IsPending hand.old.number.0 hand.old.core line.old p }
    requires version { is_some hand.old.core.version ≡ true }
    requires room { length (own pass.old.actor pass.old.seen) < 2 ^ 56 }
    ensures turn { TakesTurn stage.now pass.old pass.new hand.old hand.new (a_line l.0 ∷ []) (action.Intake l) result }
    ensures line { Has stage.now pass.new (a_line l.0) (wire line.new) }
{
    let entry = take_in_row(&mut hand.row, line, hand.number, l, p);
    let ticket = commit(stage, pass, &entry);
    Turned::Did { entry, ticket }
}

/// The core takes the pending raise of line `l` in, if it may.
fn intake_of<D: Driver>(
    stage: &Stage<Machine<D>>,
    pass: &mut Pass<Machine<D>>,
    hand: &mut CoreHand<D>,
    line: &mut Line,
    l: LineNo,
) -> Turned
    requires opened { IsOpened stage.now }
    requires stage { IsOf pass.old stage.now }
    requires hand { HoldsBeside stage.now pass.old hand.old (a_line l.0 ∷ []) }
    requires line { Has stage.now pass.old (a_line l.0) (wire line.old) }
    requires version { is_some hand.old.core.version ≡ true }
    requires room { length (own pass.old.actor pass.old.seen) < 2 ^ 56 }
    ensures turn { TakesTurn stage.now pass.old pass.new hand.old hand.new (a_line l.0 ∷ []) (action.Intake l) result }
    ensures line { Has stage.now pass.new (a_line l.0) (wire line.new) }
{
    match raise_for(&hand.core, hand.number, line) {
        Ok(p) => take_in(stage, pass, hand, line, l, p),
        Err(why) => Turned::NotEnabled(why),
    }
}

/// The same, of a core that is on.
fn intake_on<D: Driver>(
    stage: &Stage<Machine<D>>,
    pass: &mut Pass<Machine<D>>,
    hand: &mut CoreHand<D>,
    l: LineNo,
) -> Turned
    requires opened { IsOpened stage.now }
    requires stage { IsOf pass.old stage.now }
    requires hand { HoldsBeside stage.now pass.old hand.old [] }
    requires line { l.0 < stage.now.scene.settings.lines }
    requires version { is_some hand.old.core.version ≡ true }
    requires room { length (own pass.old.actor pass.old.seen) < 2 ^ 56 }
    ensures { TakesTurn stage.now pass.old pass.new hand.old hand.new [] (action.Intake l) result }
{
    let mut line = match take_line(stage, pass, l) {
        Ok(line) => line,
        Err(busy) => return Turned::Busy(busy),
    };
    let turned = intake_of(stage, pass, hand, &mut line, l);
    put_line(stage, pass, l, line);
    turned
}

/// The core takes the pending raise of line `l` in, if it may.
pub(crate) fn intake_turn<D: Driver>(
    stage: &Stage<Machine<D>>,
    pass: &mut Pass<Machine<D>>,
    hand: &mut CoreHand<D>,
    l: LineNo,
) -> Turned
    requires opened { IsOpened stage.now }
    requires stage { IsOf pass.old stage.now }
    requires hand { HoldsCore stage.now pass.old hand.old }
    requires room { length (own pass.old.actor pass.old.seen) < 2 ^ 56 }
    requires line { l.0 < stage.now.scene.settings.lines }
    ensures hand { HoldsCore stage.now pass.new hand.new }
    ensures number { hand.new.number ≡ hand.old.number }
    ensures on { GoesOn pass.old pass.new }
    ensures turn { AnswersTurn stage.now pass.old pass.new 0 (actor.Core hand.old.number) (action.Intake l) result }
    ensures same { IsNoEntry result → hand.new ≡ hand.old }
{
    match hand.core.version() {
        Some(_) => intake_on(stage, pass, hand, l),
        None => Turned::NotEnabled(Reason::CoreOff),
    }
}
