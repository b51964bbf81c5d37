//! How the actors of a run get their seats.
ghost use Rattle.std.specs.Prelude.{◌≡◌, ◌+◌, ◌<◌, ◌≤◌, [], ◌∷◌, IfOk, length, true, vec_capacity};
ghost use Rattle.dc_logs.specs.Rests.{AllOf};
ghost use Rattle.dc_crew.specs.Crews.{IsCrew, IsNew, AreNumbered};
ghost use Rattle.dc_crew.specs.Seats.{IsSeat};
ghost use Rattle.dc_crew.specs.Splits.{having_made_more};
ghost use Rattle.dc_stage.specs.Passes.{IsOf, first_of, having_made, made_by};

use crate::seats::Seat;
use dc_base::memory::Memory;
use dc_both::EitherKernel;
use dc_hands::Row;
use dc_logs::ActorLog;
use dc_scene::Machine;
use dc_stage::{Pass, Stage};
use std::alloc::Global;

/// The seats of all actors: one for each core, in their order, and the script's.
#[derive(Drop)]
pub struct Crew {
    pub script: Seat,
    pub seats: Vec<Seat>,
}

/// The seat of the next actor.
fn split_seat(
    alloc: Global,
    stage: &Stage<Machine<EitherKernel>>,
    first: &mut Pass<Machine<EitherKernel>>,
    room: u32,
) -> Result<Seat, Memory>
    requires stage { IsOf first.old stage.now }
    requires first { (first.old.first ≡ true) × (first.old.made < stage.now.actors) × (first.old.seen ≡ []) }
    ensures first { IfOk result (λ _. first.new ≡ having_made first.old) }
    ensures seat { IfOk result (λ s. IsSeat stage.now s × IsNew room s × (s.pass.actor ≡ first.old.made)) }
{
    let log = ActorLog::with_room(alloc, room)?;
    let row = Row::with_room(alloc)?;
    Ok(Seat {
        pass: stage.split(first),
        log,
        row,
    })
}

/// The seats of so many further actors, and room for one seat more.
fn split_seats(
    alloc: Global,
    stage: &Stage<Machine<EitherKernel>>,
    first: &mut Pass<Machine<EitherKernel>>,
    count: u32,
    room: u32,
) -> Result<Vec<Seat>, Memory>
    requires stage { IsOf first.old stage.now }
    requires first { (first.old.first ≡ true) × (first.old.made + count ≤ stage.now.actors) × (first.old.seen ≡ []) }
    requires few { count < 64 }
    ensures first { IfOk result (λ _. first.new ≡ having_made_more first.old count) }
    ensures count { IfOk result (λ seats. (length seats.items ≡ count) × (length seats.items < vec_capacity seats)) }
    ensures numbers { IfOk result (λ seats. AreNumbered first.old.made seats.items) }
    ensures seats { IfOk result (λ seats. AllOf (IsSeat stage.now) seats.items × AllOf (IsNew room) seats.items) }
{
    let mut seats = Vec::with_capacity(alloc, count as usize + 1)?;
    for _ in 0..count {
        let seat = split_seat(alloc, stage, first, room)?;
        seats.push_reserved(seat);
    }
    Ok(seats)
}

/// The seats of all actors of a stage that was just opened. The first pass is core 0's, and the script's is made last. The logs take all their memory now:
/// each core's has room for `room` entries, and the script's for `script_room`. So do the rows.
pub fn make_seats(
    alloc: Global,
    stage: &Stage<Machine<EitherKernel>>,
    mut first: Pass<Machine<EitherKernel>>,
    room: u32,
    script_room: u32,
) -> Result<Crew, Memory>
    requires first { first ≡ first_of stage.now }
    requires cores { (1 ≤ stage.now.scene.settings.cores) × (stage.now.scene.settings.cores < 64) }
    requires actors { stage.now.actors ≡ stage.now.scene.settings.cores + 1 }
    ensures crew { IfOk result (λ r. IsCrew stage.now r.seats.items r.script) }
    ensures new { IfOk result (λ r. AllOf (IsNew room) r.seats.items × IsNew script_room r.script) }
{
    let log = ActorLog::with_room(alloc, room)?;
    let row = Row::with_room(alloc)?;
    let others = stage.scene().settings.cores() - 1;
    let mut seats = split_seats(alloc, stage, &mut first, others, room)?;
    let script = split_seat(alloc, stage, &mut first, script_room)?;
    match seats.insert(
        0,
        Seat {
            pass: first,
            log,
            row,
        },
    ) {
        Ok(()) => Ok(Crew { script, seats }),
        Err(_) => Err(Memory),
    }
}
