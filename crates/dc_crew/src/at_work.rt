//! A core takes its objects into its hand, acts, and puts them back.
ghost use Rattle.std.specs.Prelude.{IfErr, IfOk};
ghost use Rattle.dc_hands.specs.Machines.{IsOpened};
ghost use Rattle.dc_crew.specs.AtWork.{IsAtWork};
ghost use Rattle.dc_crew.specs.Laters.{IsLaterSeat};
ghost use Rattle.dc_crew.specs.Seats.{IsCoreSeat};
ghost use Rattle.dc_crew.specs.declared.seats.Seat.{Seat as Seated};

use crate::flags::Flags;
use crate::seats::Seat;
use dc_base::numbers::CoreNo;
use dc_both::{EitherKernel, both_are_served};
use dc_hands::{CoreHand, gather_core, stow_core};
use dc_logs::{ActorLog, logs_stay};
use dc_rounds::{Round, go_round, look_at_work};
use dc_scene::{Machine, history_is_of_the_machine};
use dc_stage::{Pass, Stage};

/// A core's pass, the log of its entries, and its objects in hand.
#[derive(Drop)]
pub(crate) struct CoreAtWork {
    pub pass: Pass<Machine<EitherKernel>>,
    pub log: ActorLog,
    pub hand: CoreHand<EitherKernel>,
}

/// Takes the core's objects into its hand. Where another actor has one of them, the core just sees all entries.
pub(crate) fn try_gather(
    stage: &Stage<Machine<EitherKernel>>,
    seat: Seat,
) -> Result<CoreAtWork, Seat>
    requires opened { IsOpened stage.now }
    requires seat { IsCoreSeat stage.now seat }
    ensures work { IfOk result (IsAtWork stage.now seat) }
    ensures busy { IfErr result (IsLaterSeat stage.now seat) }
{
    logs_stay();
    history_is_of_the_machine::<EitherKernel>();
    let Seat { mut pass, log, row } = seat;
    let core = CoreNo(pass.actor());
    match gather_core(stage, &mut pass, core, row) {
        Ok(hand) => Ok(CoreAtWork { pass, log, hand }),
        Err((row, _)) => {
            stage.look(&mut pass);
            Err(Seat { pass, log, row })
        }
    }
}

/// Puts the core's objects back.
pub(crate) fn stow(stage: &Stage<Machine<EitherKernel>>, work: CoreAtWork) -> Seat
    requires opened { IsOpened stage.now }
    requires work { (s : Seated) × IsAtWork stage.now s work }
    ensures { (s : Seated) → IsAtWork stage.now s work → IsLaterSeat stage.now s result }
{
    let CoreAtWork {
        mut pass,
        log,
        hand,
    } = work;
    let row = stow_core(stage, &mut pass, hand);
    Seat { pass, log, row }
}

/// One round of the core.
fn round_of(stage: &Stage<Machine<EitherKernel>>, work: &mut CoreAtWork) -> Round
    requires opened { IsOpened stage.now }
    requires work { (s : Seated) × IsAtWork stage.now s work.old }
    ensures { (s : Seated) → IsAtWork stage.now s work.old → IsAtWork stage.now s work.new }
{
    both_are_served();
    go_round(stage, &mut work.pass, &mut work.log, &mut work.hand)
}

/// The core tells the others that it found nothing to do, and after how many entries.
fn tell_quiet(stage: &Stage<Machine<EitherKernel>>, flags: &Flags, work: &mut CoreAtWork)
    requires opened { IsOpened stage.now }
    requires work { (s : Seated) × IsAtWork stage.now s work.old }
    ensures { (s : Seated) → IsAtWork stage.now s work.old → IsAtWork stage.now s work.new }
{
    let length = look_at_work(stage, &mut work.pass, &work.log, &work.hand);
    flags.set_quiet(work.hand.number().0, length);
}

/// The core tells the others where its log is full.
fn tell_full(flags: &Flags, round: &Round) {
    if round.full {
        flags.set_full(true);
    }
}

/// One round of the core, which tells the others whether it made an entry, and where its log is full.
pub(crate) fn go_and_tell(
    stage: &Stage<Machine<EitherKernel>>,
    flags: &Flags,
    work: &mut CoreAtWork,
) -> Round
    requires opened { IsOpened stage.now }
    requires work { (s : Seated) × IsAtWork stage.now s work.old }
    ensures { (s : Seated) → IsAtWork stage.now s work.old → IsAtWork stage.now s work.new }
{
    let round = round_of(stage, work);
    tell_full(flags, &round);
    if round.made {
        flags.set_busy(work.hand.number().0);
    } else {
        tell_quiet(stage, flags, work);
    }
    round
}
