//! The stretches of a run: each of them ends with a rest.
ghost use Rattle.std.specs.Prelude.{◌≡◌, IfSome, true};
ghost use Rattle.dc_hands.specs.Machines.{IsOpened};
ghost use Rattle.dc_run.specs.Going.{IsGoing, IsAtRest, IsOver};

use dc_both::EitherKernel;
use dc_crew::{Flags, Home, run_crew};
use dc_io::Gate;
use dc_rests::{act_at_rest, settle};
use dc_scene::Machine;
use dc_stage::Stage;
use std::sync::Wait;
use std::thread::Threads;

/// The seats at home at a rest, after so many entries.
#[derive(Drop)]
struct AtHome {
    home: Home,
    entries: u64,
}

/// The seats at home after a rest, and whether all is over: the script is answered, and no core can act any more.
#[derive(Drop)]
pub(crate) struct Stretch {
    pub(crate) home: Home,
    pub(crate) is_over: bool,
}

/// The cores work in threads of their own beside the script, come home, and are turned until none can act. There is no rest where a log is full.
fn work_until_rest<R: Threads + Wait + Sync, G: Gate>(
    rt: &R,
    gate: &G,
    stage: &Stage<Machine<EitherKernel>>,
    flags: &Flags,
    home: Home,
) -> Option<AtHome>
    requires opened { IsOpened stage.now }
    requires home { IsGoing stage.now home }
    ensures { IfSome result (λ r. IsAtRest stage.now r.home r.entries) }
{
    let home = run_crew(
        rt,
        gate,
        stage,
        flags,
        home.script,
        home.polls,
        home.seats,
        home.room,
    );
    let settled = settle(rt, stage, home.script, home.seats);
    match settled.rest {
        Some(entries) => Some(AtHome {
            home: Home {
                script: settled.script,
                polls: home.polls,
                seats: settled.seats,
                room: home.room,
            },
            entries,
        }),
        None => None,
    }
}

/// The script does what is to be done at a rest.
fn act<R: Wait>(rt: &R, stage: &Stage<Machine<EitherKernel>>, at: AtHome) -> Stretch
    requires opened { IsOpened stage.now }
    requires rest { IsAtRest stage.now at.home at.entries }
    ensures going { IsGoing stage.now result.home }
    ensures over { result.is_over ≡ true → IsOver stage.now result.home }
{
    let home = at.home;
    let acted = act_at_rest(rt, stage, home.script, home.polls, at.entries);
    Stretch {
        home: Home {
            script: acted.script,
            polls: acted.polls,
            seats: home.seats,
            room: home.room,
        },
        is_over: acted.is_over,
    }
}

/// One stretch of a run: work until a rest, and what the script does there. There is none where a log is full.
pub(crate) fn go_on<R: Threads + Wait + Sync, G: Gate>(
    rt: &R,
    gate: &G,
    stage: &Stage<Machine<EitherKernel>>,
    flags: &Flags,
    home: Home,
) -> Option<Stretch>
    requires opened { IsOpened stage.now }
    requires home { IsGoing stage.now home }
    ensures going { IfSome result (λ r. IsGoing stage.now r.home) }
    ensures over { IfSome result (λ r. r.is_over ≡ true → IsOver stage.now r.home) }
{
    match work_until_rest(rt, gate, stage, flags, home) {
        Some(at) => Some(act(rt, stage, at)),
        None => None,
    }
}
