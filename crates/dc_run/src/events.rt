//! The events of a run.
ghost use Rattle.std.specs.Prelude.{◌≡◌, ◌<◌, ◌≤◌, ℕ, [], IfOk, length, vec_capacity};
ghost use Rattle.dc_crew.specs.Crews.{IsCrew, IsNew};
ghost use Rattle.dc_hands.specs.Machines.{IsOpened};
ghost use Rattle.dc_logs.specs.Rests.{AllOf};
ghost use Rattle.dc_run.specs.Going.{IsGoing, IsOver};
ghost use Rattle.dc_run.specs.Running.{HasRun};

use crate::stretches::go_on;
use dc_base::memory::Memory;
use dc_both::EitherKernel;
use dc_crew::{Crew, Ended, Flags, Home, Started, end};
use dc_io::Gate;
use dc_journal::Logged;
use dc_runs::fruitless_cores_rest;
use dc_scene::{Machine, history_is_of_the_machine};
use dc_stage::Stage;
use std::alloc::Global;
use std::sync::Wait;
use std::thread::Threads;

/// One stretch after another, until all is over. An error is a full log.
fn go_on_until_over<R: Threads + Wait + Sync, G: Gate>(
    rt: &R,
    gate: &G,
    stage: &Stage<Machine<EitherKernel>>,
    home: Home,
) -> Result<Home, Memory>
    requires opened { IsOpened stage.now }
    requires home { IsGoing stage.now home }
    ensures { IfOk result (IsOver stage.now) }
{
    let flags = Flags::new();
    let mut home = home;
    for _ in rt.forever() {
        match go_on(rt, gate, stage, &flags, home) {
            Some(stretch) => {
                if stretch.is_over {
                    return Ok(stretch.home);
                }
                home = stretch.home;
            }
            None => return Err(Memory),
        }
    }
    unreachable!()
}

/// Ends a run that is over. An error is want of memory for the journal.
fn end_over(
    alloc: Global,
    stage: Stage<Machine<EitherKernel>>,
    home: Home,
    logs: Vec<Vec<Logged>>,
) -> Result<Ended, Memory>
    requires opened { IsOpened stage }
    requires over { IsOver stage home }
    requires logs { (logs.items ≡ []) × (length home.seats.items < vec_capacity logs) }
    ensures { IfOk result (HasRun stage) }
{
    fruitless_cores_rest();
    history_is_of_the_machine::<EitherKernel>();
    end(alloc, stage, home.script, home.seats, logs)
}

/// All events of a machine whose actors have their seats: the script is answered, and no core can act any more. The lists are empty and have room for the
/// threads and the logs. An error is want of memory: a log is full, or there is none for the journal.
pub fn run_events<R: Threads + Wait + Sync, G: Gate>(
    rt: &R,
    gate: &G,
    alloc: Global,
    stage: Stage<Machine<EitherKernel>>,
    crew: Crew,
    room: Vec<Started>,
    logs: Vec<Vec<Logged>>,
) -> Result<Ended, Memory>
    requires opened { IsOpened stage }
    requires crew { IsCrew stage crew.seats.items crew.script }
    requires new { (own_room script_room : ℕ) × AllOf (IsNew own_room) crew.seats.items × IsNew script_room crew.script }
    requires room { (room.items ≡ []) × (length crew.seats.items ≤ vec_capacity room) }
    requires logs { (logs.items ≡ []) × (length crew.seats.items < vec_capacity logs) }
    ensures { IfOk result (HasRun stage) }
{
    let home = Home {
        script: crew.script,
        polls: 0,
        seats: crew.seats,
        room,
    };
    let home = go_on_until_over(rt, gate, &stage, home)?;
    end_over(alloc, stage, home, logs)
}
