//! Whether a core can do nothing after the first n entries: it tries all that it could do, and no entry came meanwhile.

ghost use Rattle.std.specs.Prelude.{◌≡◌, ◌<◌, Some, true, length};
ghost use Rattle.dc_base.specs.declared.actions.Actor.TheVariants as actor;
ghost use Rattle.dc_base.specs.declared.kernels.Version.TheVariants.{Rr, Edf};
ghost use Rattle.dc_base.specs.KeptByBlocks.{HasShape};
ghost use Rattle.dc_base.specs.States.{Block};
ghost use Rattle.dc_base.specs.Valid.{IsActionOf};
ghost use Rattle.dc_stage.specs.Passes.{IsOf};
ghost use Rattle.dc_hands.specs.Holding.{GoesOn};
ghost use Rattle.dc_hands.specs.Machines.{IsOpened};
ghost use Rattle.dc_hands.specs.Rows.{in_row};
ghost use Rattle.dc_rounds.specs.Working.{IsInVainAt, IsQuietAt, IsStill, IsTriedDisp, TriedDisps, TriedLines, TriedShare, WorksCore};

use crate::acting::{Went, act};
use crate::looking::look_at_work;
use dc_base::actions::Action;
use dc_base::numbers::{BlockNo, DispNo, LineNo};
use dc_hands::{CoreHand, hands_show_their_blocks};
use dc_kernel::Driver;
use dc_logs::{ActorLog, prefixes_of_one_length};
use dc_scene::Machine;
use dc_stage::{Pass, Stage};

/// Whether an action makes no entry after the first `n` entries, and no more came.
fn is_in_vain<D: Driver>(
    stage: &Stage<Machine<D>>,
    pass: &mut Pass<Machine<D>>,
    log: &mut ActorLog,
    hand: &mut CoreHand<D>,
    n: u64,
    action: &Action,
) -> bool
    requires opened { IsOpened stage.now }
    requires stage { IsOf pass.old stage.now }
    requires work { WorksCore stage.now pass.old log.old hand.old }
    requires action { IsActionOf stage.now.scene.settings (actor.Core hand.old.number) action.now }
    requires count { length pass.old.seen ≡ n }
    requires first { D.served Rr ≡ true }
    requires second { D.served Edf ≡ true }
    ensures work { WorksCore stage.now pass.new log.new hand.new }
    ensures number { hand.new.number ≡ hand.old.number }
    ensures on { GoesOn pass.old pass.new }
    ensures room { log.new.room ≡ log.old.room }
    ensures vain { result ≡ true → IsInVainAt stage.now pass.old pass.new hand.old hand.new action.now }
{
    prefixes_of_one_length();
    match act(stage, pass, log, hand, action) {
        Went::InVain => look_at_work(stage, pass, log, hand) == n,
        _ => false,
    }
}

/// The same of the intake of each line.
fn are_intakes_in_vain<D: Driver>(
    stage: &Stage<Machine<D>>,
    pass: &mut Pass<Machine<D>>,
    log: &mut ActorLog,
    hand: &mut CoreHand<D>,
    n: u64,
) -> bool
    requires opened { IsOpened stage.now }
    requires stage { IsOf pass.old stage.now }
    requires work { WorksCore stage.now pass.old log.old hand.old }
    requires count { length pass.old.seen ≡ n }
    requires first { D.served Rr ≡ true }
    requires second { D.served Edf ≡ true }
    ensures work { WorksCore stage.now pass.new log.new hand.new }
    ensures number { hand.new.number ≡ hand.old.number }
    ensures on { GoesOn pass.old pass.new }
    ensures room { log.new.room ≡ log.old.room }
    ensures still { result ≡ true → IsStill pass.old pass.new hand.old hand.new }
    ensures tried { result ≡ true → TriedLines stage.now pass.new hand.new.number.0 stage.now.scene.settings.lines }
{
    for l in 0..stage.scene().settings.lines() {
        if !is_in_vain(stage, pass, log, hand, n, &Action::Intake(LineNo(l))) {
            return false;
        }
    }
    true
}

/// The same of the wake of dispatcher `d` of block `b` of the share, where it waits on a channel.
fn is_wake_in_vain<D: Driver>(
    stage: &Stage<Machine<D>>,
    pass: &mut Pass<Machine<D>>,
    log: &mut ActorLog,
    hand: &mut CoreHand<D>,
    n: u64,
    b: BlockNo,
    d: DispNo,
) -> bool
    requires opened { IsOpened stage.now }
    requires stage { IsOf pass.old stage.now }
    requires work { WorksCore stage.now pass.old log.old hand.old }
    requires count { length pass.old.seen ≡ n }
    requires first { D.served Rr ≡ true }
    requires second { D.served Edf ≡ true }
    requires block { b.0 < stage.now.scene.settings.blocks }
    requires disp { d.0 < 16 }
    requires shape { (x : Block) → in_row hand.old.row b.0 ≡ Some x → HasShape x.control }
    ensures work { WorksCore stage.now pass.new log.new hand.new }
    ensures number { hand.new.number ≡ hand.old.number }
    ensures on { GoesOn pass.old pass.new }
    ensures room { log.new.room ≡ log.old.room }
    ensures still { result ≡ true → IsStill pass.old pass.new hand.old hand.new }
    ensures tried { result ≡ true → IsTriedDisp stage.now pass.new hand.new b.0 d.0 }
{
    if !hand.waits(b, d) {
        return true;
    }
    is_in_vain(stage, pass, log, hand, n, &Action::Wake(b, d))
}

/// The same of the wake of each dispatcher of block `b` of the share that waits on a channel.
fn are_wakes_in_vain<D: Driver>(
    stage: &Stage<Machine<D>>,
    pass: &mut Pass<Machine<D>>,
    log: &mut ActorLog,
    hand: &mut CoreHand<D>,
    n: u64,
    b: BlockNo,
) -> bool
    requires opened { IsOpened stage.now }
    requires stage { IsOf pass.old stage.now }
    requires work { WorksCore stage.now pass.old log.old hand.old }
    requires count { length pass.old.seen ≡ n }
    requires first { D.served Rr ≡ true }
    requires second { D.served Edf ≡ true }
    requires block { b.0 < stage.now.scene.settings.blocks }
    requires there { (x : Block) × (in_row hand.old.row b.0 ≡ Some x) }
    requires shape { (x : Block) → in_row hand.old.row b.0 ≡ Some x → HasShape x.control }
    ensures work { WorksCore stage.now pass.new log.new hand.new }
    ensures number { hand.new.number ≡ hand.old.number }
    ensures on { GoesOn pass.old pass.new }
    ensures room { log.new.room ≡ log.old.room }
    ensures still { result ≡ true → IsStill pass.old pass.new hand.old hand.new }
    ensures tried { result ≡ true → (x : Block) → in_row hand.new.row b.0 ≡ Some x → TriedDisps stage.now pass.new hand.new b.0 (length x.control.states) }
{
    for d in 0..hand.disps(b) {
        if !is_wake_in_vain(stage, pass, log, hand, n, b, DispNo(d)) {
            return false;
        }
    }
    true
}

/// The same of each block of the share.
fn is_share_in_vain<D: Driver>(
    stage: &Stage<Machine<D>>,
    pass: &mut Pass<Machine<D>>,
    log: &mut ActorLog,
    hand: &mut CoreHand<D>,
    n: u64,
) -> bool
    requires opened { IsOpened stage.now }
    requires stage { IsOf pass.old stage.now }
    requires work { WorksCore stage.now pass.old log.old hand.old }
    requires count { length pass.old.seen ≡ n }
    requires first { D.served Rr ≡ true }
    requires second { D.served Edf ≡ true }
    ensures work { WorksCore stage.now pass.new log.new hand.new }
    ensures number { hand.new.number ≡ hand.old.number }
    ensures on { GoesOn pass.old pass.new }
    ensures room { log.new.room ≡ log.old.room }
    ensures still { result ≡ true → IsStill pass.old pass.new hand.old hand.new }
    ensures tried { result ≡ true → TriedShare stage.now pass.new hand.new (length hand.new.core.share) }
{
    hands_show_their_blocks::<D>();
    for i in 0..hand.share_len() {
        let Some(b) = hand.share_at(i) else {
            return false;
        };
        if !are_wakes_in_vain(stage, pass, log, hand, n, b) {
            return false;
        }
    }
    true
}

/// Whether the core can do nothing after the first `n` entries, which are all: it tries its order, the intake of each line, the wake of each dispatcher of its
/// share that waits on a channel, and its step. A try that makes an entry, finds an object with another actor, or finds the log full ends it.
pub fn is_quiet_at<D: Driver>(
    stage: &Stage<Machine<D>>,
    pass: &mut Pass<Machine<D>>,
    log: &mut ActorLog,
    hand: &mut CoreHand<D>,
    n: u64,
) -> bool
    requires opened { IsOpened stage.now }
    requires stage { IsOf pass.old stage.now }
    requires work { WorksCore stage.now pass.old log.old hand.old }
    requires first { D.served Rr ≡ true }
    requires second { D.served Edf ≡ true }
    ensures work { WorksCore stage.now pass.new log.new hand.new }
    ensures number { hand.new.number ≡ hand.old.number }
    ensures on { GoesOn pass.old pass.new }
    ensures room { log.new.room ≡ log.old.room }
    ensures quiet { result ≡ true → IsQuietAt stage.now n pass.new hand.new.number.0 }
{
    hands_show_their_blocks::<D>();
    if look_at_work(stage, pass, log, hand) != n {
        return false;
    }
    if !is_in_vain(stage, pass, log, hand, n, &Action::Order) {
        return false;
    }
    if !are_intakes_in_vain(stage, pass, log, hand, n) {
        return false;
    }
    if !is_share_in_vain(stage, pass, log, hand, n) {
        return false;
    }
    is_in_vain(stage, pass, log, hand, n, &Action::Step)
}
