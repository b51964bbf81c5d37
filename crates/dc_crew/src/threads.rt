//! A core's thread.
ghost use Rattle.std.specs.Prelude.{◌<◌};
ghost use Rattle.dc_crew.specs.Laters.{IsLaterSeat};
ghost use Rattle.dc_hands.specs.Machines.{IsOpened};
ghost use Rattle.dc_crew.specs.Seats.{IsSeat};
ghost use Rattle.dc_crew.specs.Started.{IsStarted};

use crate::core_work::work;
use crate::flags::Flags;
use crate::seats::Seat;
use dc_both::EitherKernel;
use dc_io::Gate;
use dc_scene::Machine;
use dc_stage::Stage;
use std::snapshot::Snapshot;
use std::sync::Wait;
use std::thread::{Promise, PromisedHandle, Scope, Threads};

/// What a core's thread promises of the seat that it brings home.
#[derive(Drop)]
pub struct ComesBack {
    stage: Snapshot<Stage<Machine<EitherKernel>>>,
    seat: Snapshot<Seat>,
}

impl Promise<Seat> for ComesBack {
    ghost use Rattle.dc_crew.specs.Laters.{IsLaterSeat};

    ghost kept_by = { λ p r. IsLaterSeat p.stage.value p.seat.value r };
}

/// A core whose thread was started, or whose seat is still here.
#[derive(Drop)]
pub enum Started {
    Away(PromisedHandle<Seat, ComesBack>),
    Here(Seat),
}

/// What a core's thread runs: nothing where it is refused, and else its rounds.
fn work_unless_refused<R: Wait, G: Gate>(
    rt: &R,
    gate: &G,
    stage: &Stage<Machine<EitherKernel>>,
    flags: &Flags,
    core: u32,
    seat: Seat,
) -> Seat
    requires opened { IsOpened stage.now }
    requires seat { IsSeat stage.now seat }
    requires core { seat.pass.actor < stage.now.scene.settings.cores }
    ensures { IsLaterSeat stage.now seat result }
{
    if flags.is_refused(core) {
        return seat;
    }
    work(rt, gate, stage, flags, seat)
}

/// Starts the thread of a core, or keeps the seat here where no thread can be made.
pub(crate) fn start<'s, E, R: Wait + Sync, G: Gate>(
    rt: &'s R,
    gate: &'s G,
    scope: &'s Scope<'s, E>,
    stage: &'s Stage<Machine<EitherKernel>>,
    flags: &'s Flags,
    seat: Seat,
) -> Started
    requires opened { IsOpened stage.now }
    requires seat { IsSeat stage.now seat }
    requires core { seat.pass.actor < stage.now.scene.settings.cores }
    ensures { IsStarted stage.now seat result }
{
    let core = seat.pass.actor();
    flags.refuse(core, false);
    let promise = ComesBack {
        stage: Snapshot::of(stage),
        seat: Snapshot::of(&seat),
    };
    let job = move || -> Seat
        requires { IsOpened stage.now × IsSeat stage.now seat × (seat.pass.actor < stage.now.scene.settings.cores) }
        ensures { IsLaterSeat stage.entry.now seat result }
    { work_unless_refused(rt, gate, stage, flags, core, seat) };
    match scope.spawn_with(promise, job) {
        Ok(handle) => Started::Away(handle),
        Err(error) => {
            flags.refuse(core, true);
            Started::Here((error.value)())
        }
    }
}

/// A core's seat comes home.
pub(crate) fn finish<R: Threads>(rt: &R, started: Started) -> Seat
    ensures { (st : _) (s : _) → IsStarted st s started → IsLaterSeat st s result }
{
    match started {
        Started::Away(handle) => handle.join(rt),
        Started::Here(seat) => seat,
    }
}
