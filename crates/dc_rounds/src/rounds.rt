//! A round of a core: its order, the intake of each line, the wake of each dispatcher of its share that waits on a channel, and its step.

ghost use Rattle.std.specs.Prelude.{◌≡◌, ◌<◌, true};
ghost use Rattle.dc_base.specs.declared.kernels.Version.TheVariants.{Rr, Edf};
ghost use Rattle.dc_stage.specs.Passes.{IsOf};
ghost use Rattle.dc_hands.specs.Holding.{GoesOn};
ghost use Rattle.dc_hands.specs.Machines.{IsOpened};
ghost use Rattle.dc_rounds.specs.Working.{IsPlain, WorksCore};

use crate::acting::{Went, act};
use dc_base::actions::Action;
use dc_base::numbers::{BlockNo, DispNo, LineNo};
use dc_hands::{CoreHand, hands_show_their_blocks};
use dc_kernel::Driver;
use dc_logs::ActorLog;
use dc_scene::Machine;
use dc_stage::{Pass, Stage};

/// What a round came to: whether an entry was made, whether another actor had an object, and whether the log is full.
#[derive(Clone, Copy, Debug, Default, PartialEq, Eq)]
pub struct Round {
    pub made: bool,
    pub busy: bool,
    pub full: bool,
}

impl Round {
    /// One more action in the round.
    fn note(&mut self, went: Went) {
        match went {
            Went::Did => self.made = true,
            Went::InVain => {}
            Went::Busy => self.busy = true,
            Went::Full => self.full = true,
        }
    }
}

/// The intake of each line.
fn take_in_all<D: Driver>(
    stage: &Stage<Machine<D>>,
    pass: &mut Pass<Machine<D>>,
    log: &mut ActorLog,
    hand: &mut CoreHand<D>,
    round: &mut Round,
)
    requires opened { IsOpened stage.now }
    requires stage { IsOf pass.old stage.now }
    requires work { WorksCore stage.now pass.old log.old hand.old }
    requires first { D.served Rr ≡ true }
    requires second { D.served Edf ≡ true }
    ensures work { WorksCore stage.now pass.new log.new hand.new }
    ensures number { hand.new.number ≡ hand.old.number }
    ensures on { GoesOn pass.old pass.new }
    ensures room { log.new.room ≡ log.old.room }
{
    for l in 0..stage.scene().settings.lines() {
        round.note(act(stage, pass, log, hand, &Action::Intake(LineNo(l))));
    }
}

/// The wake of dispatcher `d` of block `b`, where it waits on a channel. A core has at most 16 blocks with 16 dispatchers each.
fn wake<D: Driver>(
    stage: &Stage<Machine<D>>,
    pass: &mut Pass<Machine<D>>,
    log: &mut ActorLog,
    hand: &mut CoreHand<D>,
    round: &mut Round,
    b: BlockNo,
    d: DispNo,
)
    requires opened { IsOpened stage.now }
    requires stage { IsOf pass.old stage.now }
    requires work { WorksCore stage.now pass.old log.old hand.old }
    requires first { D.served Rr ≡ true }
    requires second { D.served Edf ≡ true }
    requires disp { d.0 < 16 }
    ensures work { WorksCore stage.now pass.new log.new hand.new }
    ensures number { hand.new.number ≡ hand.old.number }
    ensures on { GoesOn pass.old pass.new }
    ensures room { log.new.room ≡ log.old.room }
{
    hands_show_their_blocks::<D>();
    if b.0 >= stage.scene().settings.blocks() {
        return;
    }
    if hand.waits(b, d) {
        round.note(act(stage, pass, log, hand, &Action::Wake(b, d)));
    }
}

/// The wake of each dispatcher of block `b` that waits on a channel.
fn wake_block<D: Driver>(
    stage: &Stage<Machine<D>>,
    pass: &mut Pass<Machine<D>>,
    log: &mut ActorLog,
    hand: &mut CoreHand<D>,
    round: &mut Round,
    b: BlockNo,
)
    requires opened { IsOpened stage.now }
    requires stage { IsOf pass.old stage.now }
    requires work { WorksCore stage.now pass.old log.old hand.old }
    requires first { D.served Rr ≡ true }
    requires second { D.served Edf ≡ true }
    ensures work { WorksCore stage.now pass.new log.new hand.new }
    ensures number { hand.new.number ≡ hand.old.number }
    ensures on { GoesOn pass.old pass.new }
    ensures room { log.new.room ≡ log.old.room }
{
    let disps = hand.disps(b).min(16);
    for d in 0..disps {
        wake(stage, pass, log, hand, round, b, DispNo(d));
    }
}

/// The wake of each dispatcher of the share that waits on a channel.
fn wake_all<D: Driver>(
    stage: &Stage<Machine<D>>,
    pass: &mut Pass<Machine<D>>,
    log: &mut ActorLog,
    hand: &mut CoreHand<D>,
    round: &mut Round,
)
    requires opened { IsOpened stage.now }
    requires stage { IsOf pass.old stage.now }
    requires work { WorksCore stage.now pass.old log.old hand.old }
    requires first { D.served Rr ≡ true }
    requires second { D.served Edf ≡ true }
    ensures work { WorksCore stage.now pass.new log.new hand.new }
    ensures number { hand.new.number ≡ hand.old.number }
    ensures on { GoesOn pass.old pass.new }
    ensures room { log.new.room ≡ log.old.room }
{
    for i in 0..hand.share_len() {
        if let Some(b) = hand.share_at(i) {
            wake_block(stage, pass, log, hand, round, b);
        }
    }
}

/// One action in the round.
fn act_in<D: Driver>(
    stage: &Stage<Machine<D>>,
    pass: &mut Pass<Machine<D>>,
    log: &mut ActorLog,
    hand: &mut CoreHand<D>,
    round: &mut Round,
    action: &Action,
)
    requires opened { IsOpened stage.now }
    requires stage { IsOf pass.old stage.now }
    requires work { WorksCore stage.now pass.old log.old hand.old }
    requires first { D.served Rr ≡ true }
    requires second { D.served Edf ≡ true }
    requires action { IsPlain action.now }
    ensures work { WorksCore stage.now pass.new log.new hand.new }
    ensures number { hand.new.number ≡ hand.old.number }
    ensures on { GoesOn pass.old pass.new }
    ensures room { log.new.room ≡ log.old.room }
{
    round.note(act(stage, pass, log, hand, action));
}

/// A round. What it came to only steers.
pub fn go_round<D: Driver>(
    stage: &Stage<Machine<D>>,
    pass: &mut Pass<Machine<D>>,
    log: &mut ActorLog,
    hand: &mut CoreHand<D>,
) -> Round
    requires opened { IsOpened stage.now }
    requires stage { IsOf pass.old stage.now }
    requires work { WorksCore stage.now pass.old log.old hand.old }
    requires first { D.served Rr ≡ true }
    requires second { D.served Edf ≡ true }
    ensures work { WorksCore stage.now pass.new log.new hand.new }
    ensures number { hand.new.number ≡ hand.old.number }
    ensures on { GoesOn pass.old pass.new }
    ensures room { log.new.room ≡ log.old.room }
{
    let mut round = Round::default();
    act_in(stage, pass, log, hand, &mut round, &Action::Order);
    take_in_all(stage, pass, log, hand, &mut round);
    wake_all(stage, pass, log, hand, &mut round);
    act_in(stage, pass, log, hand, &mut round, &Action::Step);
    round
}
