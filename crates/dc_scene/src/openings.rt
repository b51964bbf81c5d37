//! How a stage is opened for a machine.
ghost use Rattle.std.specs.Prelude.{◌≡◌, ◌<◌, ◌≤◌, map, length, IfOk, IfErr};
ghost use Rattle.dc_base.specs.Objects.{objects, HasSizes};
ghost use Rattle.dc_scene.specs.Objects.{object_seen};
ghost use Rattle.dc_stage.specs.Passes.{first_of};

use crate::laws::{objects_are_numbered, start_opens};
use crate::machines::Machine;
use crate::objects::Object;
use dc_kernel::Driver;
use dc_stage::{Pass, Stage, StageMemory};
use std::alloc::Global;

/// A stage of all objects of a machine at its start, in the order of their numbers, for 1 to 63 actors; and its first pass, which is actor 0's.
/// It fails for want of memory alone, and takes all memory of the stage.
pub fn open_stage<D: Driver>(
    alloc: Global,
    machine: Machine<D>,
    held: Vec<Object<D>>,
    actors: u32,
) -> Result<(Stage<Machine<D>>, Pass<Machine<D>>), StageMemory<Machine<D>>>
    requires sizes { HasSizes machine.settings machine.start }
    requires start { map object_seen held.items ≡ objects machine.start }
    requires few { length held.items ≤ 1024 }
    requires actors { (1 ≤ actors) × (actors < 64) }
    ensures stage { IfOk result (λ r. (r.0.scene ≡ machine) × (r.0.objects ≡ length held.items) × (r.0.actors ≡ actors)) }
    ensures pass { IfOk result (λ r. r.1 ≡ first_of r.0) }
    ensures memory { IfErr result (λ m. (m.scene ≡ machine) × (m.objects.items ≡ held.items)) }
{
    objects_are_numbered();
    start_opens::<D>();
    Stage::open(alloc, machine, held, actors)
}
