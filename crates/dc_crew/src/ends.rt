//! How a run ends.
ghost use Rattle.std.specs.Prelude.{◌<◌, ◌≡◌, [], ◌∷◌, ◌++◌, IfOk, length, vec_capacity};
ghost use Rattle.dc_crew.specs.Crews.{IsCrew};
ghost use Rattle.dc_crew.specs.Ended.{HasEnded};
ghost use Rattle.dc_hands.specs.Machines.{IsOpened};

use crate::joins::join_all;
use crate::seats::Seat;
use dc_base::entries::Entry;
use dc_base::memory::Memory;
use dc_both::EitherKernel;
use dc_journal::Logged;
use dc_logs::journal_of;
use dc_runs::closed_objects_are_the_state;
use dc_scene::{Machine, Object, history_is_of_the_machine};
use dc_stage::{Closed, Stage};
use std::alloc::Global;

/// What a run leaves: the entries of all actors in the order of the history, and the objects by number.
#[derive(Drop)]
pub struct Ended {
    pub journal: Vec<Entry>,
    pub objects: Vec<Object<EitherKernel>>,
}

/// Ends all passes and the stage, and merges the logs. An error is want of memory for the journal.
pub fn end(
    alloc: Global,
    stage: Stage<Machine<EitherKernel>>,
    script: Seat,
    mut seats: Vec<Seat>,
    logs: Vec<Vec<Logged>>,
) -> Result<Ended, Memory>
    requires opened { IsOpened stage }
    requires crew { IsCrew stage seats.items script }
    requires room { (logs.items ≡ []) × (length seats.items < vec_capacity logs) }
    ensures { IfOk result (HasEnded stage (seats.items ++ script ∷ [])) }
{
    history_is_of_the_machine::<EitherKernel>();
    closed_objects_are_the_state::<EitherKernel>();
    let Seat {
        mut pass,
        log,
        row: _,
    } = seats.remove(0);
    seats.push_reserved(script);
    let mut logs = join_all(&stage, &mut pass, seats, logs);
    logs.push_reserved(log.into_entries());
    logs.reverse();
    let Closed { objects, scene: _ } = stage.close(pass);
    let journal = journal_of(alloc, logs)?;
    Ok(Ended { journal, objects })
}
