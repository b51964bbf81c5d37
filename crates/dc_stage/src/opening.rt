//! How a stage is opened.
ghost use Rattle.std.specs.Prelude.{◌≡◌, ℕ, ◌+◌, ◌<◌, ◌≤◌, [], length, Some, IfOk, IfErr};
ghost use mathlib.Core.Option.{some};
ghost use lib.ListN.{get_elem?};
ghost use Rattle.dc_stage.specs.Views.{newcomer};
ghost use Rattle.dc_stage.specs.Passes.{first_of};

use crate::pass::Pass;
use crate::rows;
use crate::rule::{Board, SeatOf};
use crate::scene::Scene;
use crate::stage::Stage;
use arrayvec::ArrayVec;
use atomic_table::{Refused, Table};
use std::alloc::Global;

/// There was no memory for a stage. The objects and the scene come back.
#[derive(Drop)]
pub struct StageMemory<S: Scene> {
    pub objects: Vec<<S as Scene>::Object>,
    pub scene: S,
}

impl<S: Scene> Stage<S> {
    /// A stage of 1 to 1,024 objects, each in its start state, and 1 to 63 actors; and its first pass, which is actor 0's.
    /// It fails for want of memory alone, and takes all memory of the stage.
    pub fn open(
        alloc: Global,
        scene: S,
        objects: Vec<S::Object>,
        actors: u32,
    ) -> Result<(Stage<S>, Pass<S>), StageMemory<S>>
        requires count { (1 ≤ length objects.items) × (length objects.items ≤ 1024) }
        requires actors { (1 ≤ actors) × (actors < 64) }
        requires start { (i : ℕ) (x : S.Object) → get_elem? objects.items i ≡ some x
            → S.state x ≡ (S.meaning scene).at (S.meaning scene).start i }
        ensures stage { IfOk result (λ r.
            (r.0.scene ≡ scene) × (r.0.objects ≡ length objects.items) × (r.0.actors ≡ actors)) }
        ensures pass { IfOk result (λ r. r.1 ≡ first_of r.0) }
        ensures memory { IfErr result (λ m. (m.scene ≡ scene) × (m.objects.items ≡ objects.items)) }
    {
        let scene = match Box::new(alloc, scene) {
            Ok(scene) => scene,
            Err(failed) => {
                return Err(StageMemory {
                    objects,
                    scene: failed.value,
                });
            }
        };
        let (slots, room) = match rows::into_slots(alloc, objects) {
            Ok(rows) => rows,
            Err(objects) => {
                return Err(StageMemory {
                    objects,
                    scene: Box::into_inner(scene),
                });
            }
        };
        match lay_out::<S>(alloc, &*scene, slots) {
            Ok((board, seat)) => {
                let pass = Pass {
                    seat,
                    actor: 0,
                    made: 1,
                    held: ArrayVec::new(),
                    room: Some(room),
                };
                Ok((
                    Stage {
                        board,
                        actors,
                        scene,
                    },
                    pass,
                ))
            }
            Err(Refused { slots }) => Err(StageMemory {
                objects: rows::out_of_slots(slots, room),
                scene: Box::into_inner(scene),
            }),
        }
    }
}

/// The words and slots of these objects, and the first seat. Each word starts at 0.
fn lay_out<S: Scene>(
    alloc: Global,
    scene: &S,
    slots: Vec<Option<S::Object>>,
) -> Result<(Board<S>, SeatOf<S>), Refused<Option<S::Object>, Global>>
    requires count { length slots.items ≤ 1024 }
    requires start { (i : ℕ) → i < length slots.items
        → (x : S.Object) × (get_elem? slots.items i ≡ some (Some x))
        × (S.state x ≡ (S.meaning scene.now).at (S.meaning scene.now).start i) }
    ensures ok { IfOk result (λ t.
        (t.0.shared.table_id.words ≡ length slots.items + 1)
        × (t.0.shared.table_id.slots ≡ length slots.items)
        × (t.1.table_id ≡ t.0.shared.table_id)
        × (t.1.me ≡ (newcomer scene.now, []))
        × (t.0.shared.key ≡ scene.now)) }
    ensures err { IfErr result (λ r. r.slots.items ≡ slots.items) }
{
    let zeros = [0u64; 1025];
    Table::new(alloc, &zeros[..slots.len() + 1], slots, scene)
}
