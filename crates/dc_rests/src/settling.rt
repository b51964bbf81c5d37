//! How a run comes to a rest.
ghost use Rattle.std.specs.Prelude.{◌≡◌, ◌⊎◌, ◌<◌, None, length, IfSome};
ghost use Rattle.dc_crew.specs.Crews.{IsCrew};
ghost use Rattle.dc_crew.specs.Laters.{IsLaterSeat, Pairs};
ghost use Rattle.dc_hands.specs.Machines.{IsOpened};
ghost use Rattle.dc_rests.specs.Resting.{IsRest};
ghost use Rattle.dc_rests.specs.Settling.{HasFull, IsFull};

use crate::seat_logs::{have_together, is_any_full};
use crate::turning::{see_all, turn_cores};
use crossbeam_utils::Backoff;
use dc_both::EitherKernel;
use dc_crew::Seat;
use dc_scene::Machine;
use dc_stage::Stage;
use std::sync::Wait;

/// The seats of the script and of the cores at a rest, after so many entries; or of a run that has a full log, and no rest any more.
#[derive(Drop)]
pub struct Settled {
    pub script: Seat,
    pub seats: Vec<Seat>,
    pub rest: Option<u64>,
}

/// The script sees all entries, and each core is turned. It is a rest where none of them can do anything after these entries.
fn try_settle(stage: &Stage<Machine<EitherKernel>>, script: Seat, seats: Vec<Seat>) -> Settled
    requires opened { IsOpened stage.now }
    requires crew { IsCrew stage.now seats.items script }
    ensures script { IsLaterSeat stage.now script result.script }
    ensures log { result.script.log ≡ script.log }
    ensures seats { Pairs (IsLaterSeat stage.now) seats.items result.seats.items }
    ensures rest { IfSome result.rest (λ n. IsRest stage.now n result.seats.items result.script) }
{
    let (script, n) = see_all(stage, script);
    let (seats, are_quiet) = turn_cores(stage, seats, n);
    let rest = if are_quiet && have_together(&seats, &script, n) {
        Some(n)
    } else {
        None
    };
    Settled {
        script,
        seats,
        rest,
    }
}

/// The caller turns the cores, which are all at home, one after another, until none of them can do anything.
pub fn settle<R: Wait>(
    rt: &R,
    stage: &Stage<Machine<EitherKernel>>,
    script: Seat,
    seats: Vec<Seat>,
) -> Settled
    requires opened { IsOpened stage.now }
    requires crew { IsCrew stage.now seats.items script }
    ensures crew { IsCrew stage.now result.seats.items result.script }
    ensures script { IsLaterSeat stage.now script result.script }
    ensures log { result.script.log ≡ script.log }
    ensures seats { Pairs (IsLaterSeat stage.now) seats.items result.seats.items }
    ensures rest { IfSome result.rest (λ n. IsRest stage.now n result.seats.items result.script) }
    ensures room { IfSome result.rest (λ _. length result.script.log.entries < result.script.log.room) }
    ensures full { result.rest ≡ None → HasFull result.seats.items ⊎ IsFull result.script.log }
{
    let backoff = Backoff::new();
    let mut script = script;
    let mut seats = seats;
    for _ in rt.forever() {
        if is_any_full(&seats, &script) {
            return Settled {
                script,
                seats,
                rest: None,
            };
        }
        let settled = try_settle(stage, script, seats);
        if settled.rest.is_some() {
            return settled;
        }
        script = settled.script;
        seats = settled.seats;
        backoff.snooze();
    }
    unreachable!()
}
