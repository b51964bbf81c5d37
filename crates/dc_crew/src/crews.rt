//! A thread for each core.
ghost use Rattle.std.specs.Prelude.{◌≡◌, ◌≤◌, [], List, length, vec_capacity};
ghost use Rattle.dc_base.specs.Limits.{most_polls};
ghost use Rattle.dc_logs.specs.Rests.{AllOf};
ghost use Rattle.dc_crew.specs.Crews.{IsCrew};
ghost use Rattle.dc_crew.specs.Laters.{IsLaterSeat, Pairs};
ghost use Rattle.dc_hands.specs.Machines.{IsOpened};
ghost use Rattle.dc_crew.specs.Machines.{Staged};
ghost use Rattle.dc_crew.specs.ScriptWorks.{GrowsQuietly};
ghost use Rattle.dc_crew.specs.Seats.{IsCoreSeat};
ghost use Rattle.dc_crew.specs.Started.{IsStarted};
ghost use Rattle.dc_crew.specs.declared.seats.Seat.{Seat as Seated};

use crate::flags::Flags;
use crate::script_work::script_work;
use crate::seats::Seat;
use crate::threads::{Started, finish, start};
use dc_both::EitherKernel;
use dc_io::Gate;
use dc_scene::Machine;
use dc_stage::Stage;
use std::sync::Wait;
use std::thread::{self, Scope, Threads};

/// Starts a thread for each core. The emptied list of the seats comes back too.
fn start_all<'s, E, R: Wait + Sync, G: Gate>(
    rt: &'s R,
    gate: &'s G,
    scope: &'s Scope<'s, E>,
    stage: &'s Stage<Machine<EitherKernel>>,
    flags: &'s Flags,
    mut seats: Vec<Seat>,
    mut started: Vec<Started>,
) -> (Vec<Seat>, Vec<Started>)
    requires opened { IsOpened stage.now }
    requires seats { AllOf (IsCoreSeat stage.now) seats.items }
    requires room { (started.items ≡ []) × (length seats.items ≤ vec_capacity started) }
    ensures started { Pairs (IsStarted stage.now) seats.items result.1.items }
    ensures seats { (result.0.items ≡ []) × (vec_capacity result.0 ≡ vec_capacity seats) }
    ensures room { vec_capacity result.1 ≡ vec_capacity started }
{
    while seats.len() > 0 {
        let seat = seats.remove(0);
        started.push_reserved(start(rt, gate, scope, stage, flags, seat));
    }
    (seats, started)
}

/// All cores come home. The emptied list of the threads comes back too.
fn finish_all<R: Threads>(
    rt: &R,
    mut started: Vec<Started>,
    mut seats: Vec<Seat>,
) -> (Vec<Seat>, Vec<Started>)
    requires room { (seats.items ≡ []) × (length started.items ≤ vec_capacity seats) }
    ensures seats { (st : Staged) (before : List Seated) → Pairs (IsStarted st) before started.items → Pairs (IsLaterSeat st) before result.0.items }
    ensures room { (result.1.items ≡ []) × (vec_capacity result.1 ≡ vec_capacity started) }
{
    while started.len() > 0 {
        seats.push_reserved(finish(rt, started.remove(0)));
    }
    (seats, started)
}

/// What comes home: the seat of the script and how many polls were made of the command at its place, the seats of the cores, and the room for threads, which
/// is empty again.
#[derive(Drop)]
pub struct Home {
    pub script: Seat,
    pub polls: u32,
    pub seats: Vec<Seat>,
    pub room: Vec<Started>,
}

/// The cores work in threads of their own while this one does the script's work. Then all come home, in their order. A core for which no thread can be made
/// stays here. No await ends here whose console has too few words. It takes no memory.
pub fn run_crew<R: Threads + Wait + Sync, G: Gate>(
    rt: &R,
    gate: &G,
    stage: &Stage<Machine<EitherKernel>>,
    flags: &Flags,
    script: Seat,
    polls: u32,
    seats: Vec<Seat>,
    room: Vec<Started>,
) -> Home
    requires opened { IsOpened stage.now }
    requires crew { IsCrew stage.now seats.items script }
    requires polls { polls ≤ most_polls }
    requires room { (room.items ≡ []) × (length seats.items ≤ vec_capacity room) }
    ensures crew { IsCrew stage.now result.seats.items result.script }
    ensures script { IsLaterSeat stage.now script result.script }
    ensures log { GrowsQuietly script.log result.script.log }
    ensures polls { result.polls ≤ most_polls }
    ensures seats { Pairs (IsLaterSeat stage.now) seats.items result.seats.items }
    ensures room { (result.room.items ≡ []) × (vec_capacity result.room ≡ vec_capacity room) }
{
    thread::scope(
        thread::scope_env(),
        rt,
        |scope| -> Home
            requires { IsOpened stage.now
                × IsCrew stage.now seats.items script
                × (polls ≤ most_polls)
                × ((room.items ≡ []) × (length seats.items ≤ vec_capacity room)) }
            ensures { IsLaterSeat stage.entry.now script result.script
                × GrowsQuietly script.log result.script.log
                × (result.polls ≤ most_polls)
                × Pairs (IsLaterSeat stage.entry.now) seats.items result.seats.items
                × ((result.room.items ≡ []) × (vec_capacity result.room ≡ vec_capacity room)) }
        {
            flags.call_rest(false);
            flags.set_full(false);
            let (seats, mut started) = start_all(rt, gate, scope, stage, flags, seats, room);
            let (script, polls) = script_work(rt, gate, stage, flags, script, polls, &mut started);
            flags.call_rest(true);
            let (seats, room) = finish_all(rt, started, seats);
            Home {
                script,
                polls,
                seats,
                room,
            }
        },
    )
}
