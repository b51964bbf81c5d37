//! Laws of the scene: how it opens, and what its history is.
ghost use Rattle.std.specs.Prelude.{◌≡◌, ◌↔◌, ℕ, ◌+◌, ◌≤◌, List, slice_get, map, length};
ghost use mathlib.Core.Option.{some};
ghost use lib.ListN.{get_elem?};
ghost use Rattle.dc_base.specs.declared.commands.ScriptLine.{ScriptLine};
ghost use Rattle.dc_base.specs.declared.entries.Entry.{Entry};
ghost use Rattle.dc_base.specs.declared.images.Image.{Image};
ghost use Rattle.dc_base.specs.States.{State, Settings, core_start, settings_of};
ghost use Rattle.dc_base.specs.Bounded.{AreLimited};
ghost use Rattle.dc_base.specs.Histories.{IsLawfulHistory};
ghost use Rattle.dc_base.specs.Histories.{after as after_entries};
ghost use Rattle.dc_base.specs.Objects.{objects, at_number, touched_numbers, HasSizes};
ghost use Rattle.dc_stage.specs.History.{Log, IsLawful, whole_after, after};
ghost use Rattle.dc_scene.specs.declared.machines.Machine.{Machine as Played};
ghost use Rattle.dc_scene.specs.declared.objects.Object.{Object as Held};
ghost use Rattle.dc_scene.specs.Objects.{object_seen};

use crate::machines::Machine;
use dc_kernel::Driver;
use dc_stage::Scene;

/// In a state of the sizes that the settings say, the objects by number are the list of all objects. There are as many as the settings say.
pub fn objects_are_numbered()
    ensures each { (t : Settings) (s : State) → HasSizes t s → (i : ℕ) → at_number t s i ≡ slice_get (objects s) i }
    ensures count { (t : Settings) (s : State) → HasSizes t s → length (objects s) ≡ t.cores + t.blocks + t.channels + t.lines + t.cores + t.blocks + 1 }
{}

/// The start of a machine has the sizes that its settings say, and at most 1,024 objects where its image is within the limits.
pub fn start_is_sized()
    ensures sizes { (image : Image) (script : List ScriptLine) → HasSizes (settings_of image) (core_start image script) }
    ensures few { (image : Image) (script : List ScriptLine) → AreLimited (settings_of image) → length (objects (core_start image script)) ≤ 1024 }
{}

/// Objects that are those of the start, in the order of their numbers, are each in the scene's start state.
pub fn start_opens<D: Driver>()
    ensures { (m : Played D) → HasSizes m.settings m.start → (held : List (Held D)) → map object_seen held ≡ objects m.start →
        (i : ℕ) (x : Held D) → get_elem? held i ≡ some x →
        ⟦<Machine<D> as Scene>⟧.state x ≡ (⟦<Machine<D> as Scene>⟧.meaning m).at (⟦<Machine<D> as Scene>⟧.meaning m).start i }
{}

/// A lawful history of the scene is one of the machine, the state after it is the machine's, and so is each object. An entry touches what it does in the
/// machine.
pub fn history_is_of_the_machine<D: Driver>()
    ensures lawful { (m : Played D) → HasSizes m.settings m.start → (log : Log Entry) →
        IsLawful (⟦<Machine<D> as Scene>⟧.meaning m) log ↔ IsLawfulHistory m.settings m.start log }
    ensures whole { (m : Played D) (log : Log Entry) → whole_after (⟦<Machine<D> as Scene>⟧.meaning m) log ≡ after_entries m.start log }
    ensures sizes { (m : Played D) → HasSizes m.settings m.start → (log : Log Entry) → HasSizes m.settings (after_entries m.start log) }
    ensures object { (m : Played D) → HasSizes m.settings m.start → (log : Log Entry) (i : ℕ) →
        after (⟦<Machine<D> as Scene>⟧.meaning m) log i ≡ at_number m.settings (after_entries m.start log) i }
    ensures touched { (m : Played D) (s : State) (by : ℕ) (e : Entry) → (⟦<Machine<D> as Scene>⟧.meaning m).touched s by e ≡ touched_numbers m.settings s e }
{}
