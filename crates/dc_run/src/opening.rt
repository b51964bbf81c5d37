//! What a run takes before its first event.
ghost use Rattle.std.specs.Prelude.{◌≡◌, ◌+◌, ◌≤◌, IfOk, map};
ghost use Rattle.dc_base.specs.Bounded.{AreLimited};
ghost use Rattle.dc_base.specs.Limits.{most_slices};
ghost use Rattle.dc_base.specs.Objects.{objects as in_order};
ghost use Rattle.dc_base.specs.States.{core_start, settings_of};
ghost use Rattle.dc_base.specs.Valid.{IsValid, IsValidScript};
ghost use Rattle.dc_crew.specs.Crews.{IsCrew, IsNew};
ghost use Rattle.dc_hands.specs.Machines.{IsOpened};
ghost use Rattle.dc_logs.specs.Rests.{AllOf};
ghost use Rattle.dc_numbered.specs.Rooms.{HasRoom};
ghost use Rattle.dc_run.specs.Openings.{IsReady, IsStageOf, room_of_core, room_of_script};
ghost use Rattle.dc_scene.specs.Objects.{object_seen};
ghost use Rattle.dc_stage.specs.Passes.{first_of};

use dc_base::images::Image;
use dc_base::limits::LONGEST_SCRIPT;
use dc_base::memory::Memory;
use dc_both::{EitherKernel, both_are_served};
use dc_crew::{Crew, Started, make_seats};
use dc_journal::Logged;
use dc_numbered::{Kinds, by_number, room_for};
use dc_objects::objects;
use dc_scene::{Machine, Object, open_stage, scene, start_is_sized};
use dc_script::Script;
use dc_sound::the_start_is_sound;
use dc_stage::{Pass, Stage};
use std::alloc::Global;

/// Two entries for each line of the longest script.
const LINE_ENTRIES: u32 = 2 * LONGEST_SCRIPT as u32;

/// The room of the script's log: three entries for each line of the longest script, and one more.
const SCRIPT_ROOM: u32 = LINE_ENTRIES + LONGEST_SCRIPT as u32 + 1;

/// What the events of a run need: the stage, the seats of all actors, empty lists with room for the threads and the logs; and the emptied lists of the
/// objects of each kind, for the end.
#[derive(Drop)]
pub(crate) struct Opening {
    pub stage: Stage<Machine<EitherKernel>>,
    pub crew: Crew,
    pub room: Vec<Started>,
    pub logs: Vec<Vec<Logged>>,
    pub kinds: Kinds<EitherKernel>,
}

/// All objects of the machine at its start, in one list by number, and the emptied lists of each kind.
fn list_objects(
    alloc: Global,
    image: &Image,
    script: &Script,
) -> Result<(Vec<Object<EitherKernel>>, Kinds<EitherKernel>), Memory>
    requires image { IsValid image.now }
    requires script { IsValidScript (settings_of image.now) script.now }
    ensures list { IfOk result (λ r. map object_seen r.0.items ≡ in_order (core_start image.now script.now)) }
    ensures kinds { IfOk result (λ r. HasRoom (core_start image.now script.now) r.1) }
{
    both_are_served();
    start_is_sized();
    let objects = objects::<EitherKernel>(alloc, image, script)?;
    let list = Vec::with_capacity(alloc, room_for(&objects))?;
    Ok(by_number(objects, list))
}

/// The stage of the machine, with an actor for each core and one for the script, and its first pass.
fn open_machine(
    alloc: Global,
    image: &Image,
    script: &Script,
    list: Vec<Object<EitherKernel>>,
) -> Result<(Stage<Machine<EitherKernel>>, Pass<Machine<EitherKernel>>), Memory>
    requires image { IsValid image.now }
    requires script { IsValidScript (settings_of image.now) script.now }
    requires list { map object_seen list.items ≡ in_order (core_start image.now script.now) }
    ensures of { IfOk result (λ r. IsStageOf image.now script.now r.0) }
    ensures opened { IfOk result (λ r. IsOpened r.0) }
    ensures first { IfOk result (λ r. r.1 ≡ first_of r.0) }
{
    the_start_is_sound();
    start_is_sized();
    let machine = scene::<EitherKernel>(image, script);
    let actors = machine.settings.cores() + 1;
    match open_stage(alloc, machine, list, actors) {
        Ok(opened) => Ok(opened),
        Err(_) => Err(Memory),
    }
}

/// The seats of all actors. A core's log has room for its slices, idle steps and wakes, for two entries for each line of the longest script, and for one more.
fn seat_actors(
    alloc: Global,
    stage: &Stage<Machine<EitherKernel>>,
    first: Pass<Machine<EitherKernel>>,
) -> Result<Crew, Memory>
    requires limits { AreLimited stage.now.scene.settings }
    requires actors { stage.now.actors ≡ stage.now.scene.settings.cores + 1 }
    requires first { first ≡ first_of stage.now }
    ensures crew { IfOk result (λ r. IsCrew stage.now r.seats.items r.script) }
    ensures cores { IfOk result (λ r. AllOf (IsNew (room_of_core stage.now.scene.settings)) r.seats.items) }
    ensures script { IfOk result (λ r. IsNew room_of_script r.script) }
{
    let room = stage.scene().settings.slices() + LINE_ENTRIES + 1;
    make_seats(alloc, stage, first, room, SCRIPT_ROOM)
}

/// Takes all memory of the events of a run, and opens the stage.
pub(crate) fn open_run(alloc: Global, image: &Image, script: &Script) -> Result<Opening, Memory>
    requires image { IsValid image.now }
    requires script { IsValidScript (settings_of image.now) script.now }
    ensures { IfOk result (IsReady image.now script.now) }
{
    let (list, kinds) = list_objects(alloc, image, script)?;
    let (stage, first) = open_machine(alloc, image, script, list)?;
    let crew = seat_actors(alloc, &stage, first)?;
    let cores = crew.seats.len();
    let room = Vec::with_capacity(alloc, cores)?;
    let logs = Vec::with_capacity(alloc, cores + 1)?;
    Ok(Opening {
        stage,
        crew,
        room,
        logs,
        kinds,
    })
}
