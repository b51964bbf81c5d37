//! How a stage is closed.
ghost use Rattle.std.specs.Prelude.{◌≡◌, ℕ, [], length};
ghost use mathlib.Core.Option.{some};
ghost use lib.ListN.{get_elem?};
ghost use Rattle.dc_stage.specs.History.{after};
ghost use Rattle.dc_stage.specs.Passes.{IsOf, IsAlone, NamesTakers};
ghost use Rattle.dc_stage.specs.Calls.{SeesAll};

use crate::pass::Pass;
use crate::rows;
use crate::scene::Scene;
use crate::stage::Stage;

/// What a stage had: its objects in order, after the whole history, and its scene.
#[derive(Drop)]
pub struct Closed<S: Scene> {
    pub objects: Vec<<S as Scene>::Object>,
    pub scene: S,
}

impl<S: Scene> Stage<S> {
    /// Ends the stage. What the first pass has seen is the whole history, and each object is in its state after it.
    pub fn close(self, pass: Pass<S>) -> Closed<S>
        requires stage { IsOf pass self }
        requires alone { IsAlone pass }
        requires empty { pass.holds ≡ [] }
        ensures scene { result.scene ≡ self.scene }
        ensures count { length result.objects.items ≡ self.objects }
        ensures states { (i : ℕ) (x : S.Object) → get_elem? result.objects.items i ≡ some x
            → S.state x ≡ after (S.meaning self.scene) pass.seen i }
        ensures history { SeesAll (S.meaning self.scene) pass }
        ensures refusals { NamesTakers pass }
    {
        let Stage { board, scene, .. } = self;
        let Pass { seat, room, .. } = pass;
        let Some(room) = room else { unreachable!() };
        let objects = rows::out_of_table(board.close_with(seat), room);
        Closed {
            objects,
            scene: Box::into_inner(scene),
        }
    }
}
