//! What a journal shows is within the ranges of its fields. Each law is the contract of a function that does nothing.
#![tactic(auto)]

ghost use Rattle.std.specs.Prelude.{◌≡◌, ℕ, List, IsTrue};
ghost use Rattle.std.specs.List.{list_all};
ghost use Rattle.dc_base.specs.declared.images.Image.{Image};
ghost use Rattle.dc_base.specs.declared.actions.Actor.{Actor};
ghost use Rattle.dc_base.specs.declared.actions.Action.{Action};
ghost use Rattle.dc_base.specs.declared.commands.ScriptLine.{ScriptLine};
ghost use Rattle.dc_base.specs.declared.entries.Entry.{Entry};
ghost use Rattle.dc_base.specs.States.{State, settings_of, core_start};
ghost use Rattle.dc_base.specs.CoreRuns.{core_run, core_run_from};
ghost use Rattle.dc_base.specs.EntryRanges.{has_line, is_in_range};
ghost use Rattle.dc_base.specs.Sound.{IsSound};
ghost use Rattle.dc_base.specs.Valid.{IsValid, IsValidScript};

use dc_sound::{sound_keeps, the_start_is_sound};

/// Each entry that a run from a sound state makes has a line, and its numbers are in range.
pub fn entries_from_sound_states_are_in_range()
    ensures lines { (opening : State) (schedule : List (Actor × Action)) → IsSound opening →
        IsTrue (list_all has_line (core_run_from opening schedule).journal) }
    ensures ranges { (opening : State) (schedule : List (Actor × Action)) → IsSound opening →
        IsTrue (list_all is_in_range (core_run_from opening schedule).journal) }
{
    sound_keeps();
}

/// For every valid image and script and every schedule, each entry of the journal has a line, and its numbers are in range.
pub fn entries_are_in_range()
    ensures lines { (image : Image) (script : List ScriptLine) (schedule : List (Actor × Action)) → IsValid image → IsValidScript (settings_of image) script →
        IsTrue (list_all has_line (core_run image script schedule).journal) }
    ensures ranges { (image : Image) (script : List ScriptLine) (schedule : List (Actor × Action)) → IsValid image → IsValidScript (settings_of image) script →
        IsTrue (list_all is_in_range (core_run image script schedule).journal) }
{
    the_start_is_sound();
    entries_from_sound_states_are_in_range();
}
