//! What a core does on its thread, and what is done for one that has none.
ghost use Rattle.dc_hands.specs.Machines.{IsOpened};
ghost use Rattle.dc_crew.specs.AtWork.{IsAtWork};
ghost use Rattle.dc_crew.specs.Laters.{IsLaterSeat};
ghost use Rattle.dc_crew.specs.Seats.{IsCoreSeat};
ghost use Rattle.dc_crew.specs.declared.seats.Seat.{Seat as Seated};

use crate::at_work::{CoreAtWork, go_and_tell, stow, try_gather};
use crate::flags::Flags;
use crate::seats::Seat;
use crossbeam_utils::Backoff;
use dc_both::EitherKernel;
use dc_io::Gate;
use dc_scene::Machine;
use dc_stage::Stage;
use std::sync::Wait;

/// Takes the core's objects into its hand, again and again while another actor has one of them.
fn gather_seat<R: Wait>(rt: &R, stage: &Stage<Machine<EitherKernel>>, seat: Seat) -> CoreAtWork
    requires opened { IsOpened stage.now }
    requires seat { IsCoreSeat stage.now seat }
    ensures { IsAtWork stage.now seat result }
{
    let backoff = Backoff::new();
    let mut seat = seat;
    for _ in rt.forever() {
        match try_gather(stage, seat) {
            Ok(work) => return work,
            Err(back) => seat = back,
        }
        backoff.snooze();
    }
    unreachable!()
}

/// One round of the core behind the gate, and whether more are to come: none where a rest is called and no entry was made, or where the log is full.
fn go_past<G: Gate>(
    gate: &G,
    stage: &Stage<Machine<EitherKernel>>,
    flags: &Flags,
    backoff: &Backoff,
    work: &mut CoreAtWork,
) -> bool
    requires opened { IsOpened stage.now }
    requires work { (s : Seated) × IsAtWork stage.now s work.old }
    ensures { (s : Seated) → IsAtWork stage.now s work.old → IsAtWork stage.now s work.new }
{
    gate.pass(work.hand.number());
    let called = flags.is_rest_called();
    let round = go_and_tell(stage, flags, work);
    if round.made {
        backoff.reset();
    } else {
        backoff.snooze();
    }
    !round.full && (round.made || !called)
}

/// The core's rounds, until no more are to come.
fn go_rounds<R: Wait, G: Gate>(
    rt: &R,
    gate: &G,
    stage: &Stage<Machine<EitherKernel>>,
    flags: &Flags,
    work: &mut CoreAtWork,
)
    requires opened { IsOpened stage.now }
    requires work { (s : Seated) × IsAtWork stage.now s work.old }
    ensures { (s : Seated) → IsAtWork stage.now s work.old → IsAtWork stage.now s work.new }
{
    let backoff = Backoff::new();
    for _ in rt.forever() {
        if !go_past(gate, stage, flags, &backoff, work) {
            return;
        }
    }
    unreachable!()
}

/// A core takes its objects, goes through its rounds until a rest is called and it makes no entry, or its log is full, and puts them back.
pub(crate) fn work<R: Wait, G: Gate>(
    rt: &R,
    gate: &G,
    stage: &Stage<Machine<EitherKernel>>,
    flags: &Flags,
    seat: Seat,
) -> Seat
    requires opened { IsOpened stage.now }
    requires seat { IsCoreSeat stage.now seat }
    ensures { IsLaterSeat stage.now seat result }
{
    let mut work = gather_seat(rt, stage, seat);
    go_rounds(rt, gate, stage, flags, &mut work);
    stow(stage, work)
}

/// One round of a core that has no thread, unless another actor has one of its objects.
pub(crate) fn turn_here(stage: &Stage<Machine<EitherKernel>>, flags: &Flags, seat: Seat) -> Seat
    requires opened { IsOpened stage.now }
    requires seat { IsCoreSeat stage.now seat }
    ensures { IsLaterSeat stage.now seat result }
{
    match try_gather(stage, seat) {
        Ok(mut work) => {
            go_and_tell(stage, flags, &mut work);
            stow(stage, work)
        }
        Err(back) => back,
    }
}
