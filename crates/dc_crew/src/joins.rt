//! How the passes end.
ghost use Rattle.std.specs.Prelude.{◌≡◌, ◌≤◌, [], length, true, vec_capacity};
ghost use Rattle.dc_logs.specs.Rests.{AllOf};
ghost use Rattle.dc_crew.specs.Joined.{HasJoined};
ghost use Rattle.dc_crew.specs.Seats.{IsSeat};
ghost use Rattle.dc_stage.specs.Calls.{Joins};
ghost use Rattle.dc_stage.specs.Passes.{IsOf};

use crate::seats::Seat;
use dc_both::EitherKernel;
use dc_journal::Logged;
use dc_scene::Machine;
use dc_stage::{Pass, Stage};

/// Ends the other seats, the last one first, and leaves their logs in that order.
pub(crate) fn join_all(
    stage: &Stage<Machine<EitherKernel>>,
    first: &mut Pass<Machine<EitherKernel>>,
    mut others: Vec<Seat>,
    mut logs: Vec<Vec<Logged>>,
) -> Vec<Vec<Logged>>
    requires stage { IsOf first.old stage.now }
    requires first { (first.old.first ≡ true) × (first.old.joined ≡ []) }
    requires others { AllOf (IsSeat stage.now) others.items }
    requires room { (logs.items ≡ []) × (length others.items ≤ vec_capacity logs) }
    ensures joined { HasJoined first.old first.new others.items result.items }
    ensures room { vec_capacity result ≡ vec_capacity logs }
{
    while let Some(other) = others.pop() {
        let Seat { pass, log, row: _ } = other;
        stage.join(first, pass);
        logs.push_reserved(log.into_entries());
    }
    logs
}
