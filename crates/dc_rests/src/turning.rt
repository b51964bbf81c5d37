//! Actors at home: they see all entries, and the cores are turned.
ghost use Rattle.std.specs.Prelude.{◌≡◌, length, true};
ghost use Rattle.dc_crew.specs.Laters.{IsLaterSeat, Pairs};
ghost use Rattle.dc_crew.specs.Seats.{IsCoreSeat, IsSeat};
ghost use Rattle.dc_hands.specs.Machines.{IsOpened};
ghost use Rattle.dc_logs.specs.Rests.{AllOf};
ghost use Rattle.dc_rests.specs.Settling.{IsQuietSeat};

use dc_base::numbers::CoreNo;
use dc_both::{EitherKernel, both_are_served};
use dc_crew::Seat;
use dc_rounds::{is_core_quiet, look_at_home, round_once};
use dc_scene::Machine;
use dc_stage::Stage;

/// The actor sees all entries, and tells how many there are.
pub(crate) fn see_all(stage: &Stage<Machine<EitherKernel>>, seat: Seat) -> (Seat, u64)
    requires opened { IsOpened stage.now }
    requires seat { IsSeat stage.now seat }
    ensures seat { IsLaterSeat stage.now seat result.0 }
    ensures log { result.0.log ≡ seat.log }
    ensures count { result.1 ≡ length result.0.pass.seen }
{
    let Seat { mut pass, log, row } = seat;
    let n = look_at_home(stage, &mut pass, &log);
    (Seat { pass, log, row }, n)
}

/// Whether the core can do nothing after the first `n` entries, which are all.
fn ask_core(stage: &Stage<Machine<EitherKernel>>, seat: Seat, n: u64) -> (Seat, bool)
    requires opened { IsOpened stage.now }
    requires seat { IsCoreSeat stage.now seat }
    ensures seat { IsLaterSeat stage.now seat result.0 }
    ensures quiet { result.1 ≡ true → IsQuietSeat stage.now n result.0 }
{
    both_are_served();
    let Seat {
        mut pass,
        mut log,
        row,
    } = seat;
    let core = CoreNo(pass.actor());
    let (row, is_quiet) = is_core_quiet(stage, &mut pass, &mut log, core, row, n);
    (Seat { pass, log, row }, is_quiet)
}

/// One round of the core.
fn go_round(stage: &Stage<Machine<EitherKernel>>, seat: Seat) -> Seat
    requires opened { IsOpened stage.now }
    requires seat { IsCoreSeat stage.now seat }
    ensures { IsLaterSeat stage.now seat result }
{
    both_are_served();
    let Seat {
        mut pass,
        mut log,
        row,
    } = seat;
    let core = CoreNo(pass.actor());
    let (row, _) = round_once(stage, &mut pass, &mut log, core, row);
    Seat { pass, log, row }
}

/// Whether the core can do nothing after the first `n` entries, which are all. Where it can, it makes a round, so that no core waits for another.
fn turn_core(stage: &Stage<Machine<EitherKernel>>, seat: Seat, n: u64) -> (Seat, bool)
    requires opened { IsOpened stage.now }
    requires seat { IsCoreSeat stage.now seat }
    ensures seat { IsLaterSeat stage.now seat result.0 }
    ensures quiet { result.1 ≡ true → IsQuietSeat stage.now n result.0 }
{
    let (seat, is_quiet) = ask_core(stage, seat, n);
    if is_quiet {
        return (seat, true);
    }
    (go_round(stage, seat), false)
}

/// Turns the cores one after another, and tells whether none of them can do anything after the first `n` entries, which are all.
pub(crate) fn turn_cores(
    stage: &Stage<Machine<EitherKernel>>,
    seats: Vec<Seat>,
    n: u64,
) -> (Vec<Seat>, bool)
    requires opened { IsOpened stage.now }
    requires cores { AllOf (IsCoreSeat stage.now) seats.items }
    ensures seats { Pairs (IsLaterSeat stage.now) seats.items result.0.items }
    ensures quiet { result.1 ≡ true → AllOf (IsQuietSeat stage.now n) result.0.items }
{
    let mut seats = seats;
    let mut are_quiet = true;
    for _ in 0..seats.len() {
        let (seat, is_quiet) = turn_core(stage, seats.remove(0), n);
        seats.push_reserved(seat);
        are_quiet &= is_quiet;
    }
    (seats, are_quiet)
}
