//! The objects of a closed stage.
ghost use Rattle.std.specs.Prelude.{◌≡◌, ℕ, List, map, length};
ghost use mathlib.Core.Option.{some};
ghost use lib.ListN.{get_elem?};
ghost use Rattle.dc_base.specs.declared.entries.Entry.{Entry};
ghost use Rattle.dc_base.specs.Histories.{after as after_entries};
ghost use Rattle.dc_base.specs.Objects.{objects, HasSizes};
ghost use Rattle.dc_stage.specs.History.{Log, after};
ghost use Rattle.dc_scene.specs.declared.machines.Machine.{Machine as Played};
ghost use Rattle.dc_scene.specs.declared.objects.Object.{Object as Held};
ghost use Rattle.dc_scene.specs.Objects.{object_seen};

use dc_kernel::Driver;
use dc_scene::{Machine, history_is_of_the_machine, objects_are_numbered};
use dc_stage::Scene;

/// As many objects as the machine starts with, each as it is in the scene after a history, are all objects of the state after that history, in the order of
/// their numbers.
pub fn closed_objects_are_the_state<D: Driver>()
    ensures { (m : Played D) → HasSizes m.settings m.start → (log : Log Entry) (held : List (Held D)) → length held ≡ length (objects m.start) →
        ((i : ℕ) (x : Held D) → get_elem? held i ≡ some x → ⟦<Machine<D> as Scene>⟧.state x ≡ after (⟦<Machine<D> as Scene>⟧.meaning m) log i) →
        map object_seen held ≡ objects (after_entries m.start log) }
{
    objects_are_numbered();
    history_is_of_the_machine::<D>();
}
