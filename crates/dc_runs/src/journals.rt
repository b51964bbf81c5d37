//! The journal of a lawful history.
ghost use Rattle.std.specs.Prelude.{◌≡◌, ℕ, List};
ghost use Rattle.dc_base.specs.declared.commands.ScriptLine.{ScriptLine};
ghost use Rattle.dc_base.specs.declared.entries.Entry.{Entry};
ghost use Rattle.dc_base.specs.declared.images.Image.{Image};
ghost use Rattle.dc_base.specs.States.{core_start, settings_of};
ghost use Rattle.dc_base.specs.Valid.{IsValid, IsValidScript};
ghost use Rattle.dc_base.specs.CoreRuns.{core_run, own_schedule};
ghost use Rattle.dc_base.specs.Histories.{IsLawfulHistory, after, entries_in};
ghost use Rattle.dc_base.specs.PlayText.{AreCoresAtRest, IsAnswered, IsRunJournal};
ghost use Rattle.dc_runs.specs.Awaits.{AreGivenUpAtRest};

use dc_refine::lawful_histories_are_runs;
use dc_sound::the_start_is_sound;

/// Where a lawful history answers the script and leaves every core at rest, and an await was given up only where every core was at rest, its entries are a
/// journal that a run with threads may have. The run of the schedule that these entries show leads where the history does.
pub fn lawful_histories_are_run_journals()
    ensures journal { (image : Image) (script : List ScriptLine) (history : List (ℕ × Entry)) → IsValid image → IsValidScript (settings_of image) script →
        IsLawfulHistory (settings_of image) (core_start image script) history → IsAnswered (after (core_start image script) history) →
        AreCoresAtRest (after (core_start image script) history) → AreGivenUpAtRest (core_start image script) history →
        IsRunJournal image script (entries_in history) }
    ensures state { (image : Image) (script : List ScriptLine) (history : List (ℕ × Entry)) → IsValid image → IsValidScript (settings_of image) script →
        IsLawfulHistory (settings_of image) (core_start image script) history →
        (core_run image script (own_schedule script (entries_in history))).state ≡ after (core_start image script) history }
{
    the_start_is_sound();
    lawful_histories_are_runs();
}
