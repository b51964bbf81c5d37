//! What a run leaves has a text.
ghost use Rattle.std.specs.Prelude.{List};
ghost use Rattle.dc_base.specs.declared.commands.ScriptLine.{ScriptLine};
ghost use Rattle.dc_base.specs.declared.images.Image.{Image};
ghost use Rattle.dc_base.specs.States.{core_start, settings_of};
ghost use Rattle.dc_base.specs.Valid.{IsValid, IsValidScript};
ghost use Rattle.dc_crew.specs.declared.ends.Ended.{Ended};
ghost use Rattle.dc_crew.specs.Machines.{Staged};
ghost use Rattle.dc_hands.specs.Machines.{IsOpened};
ghost use Rattle.dc_numbered.specs.Rooms.{Room, HasRoom};
ghost use Rattle.dc_run.specs.Endings.{HasText};
ghost use Rattle.dc_run.specs.Openings.{IsStageOf};
ghost use Rattle.dc_run.specs.Running.{HasRun};

use dc_both::EitherKernel;
use dc_counts::histories_are_short;
use dc_ranges::entries_are_in_range;
use dc_runs::{histories_keep_sound, lawful_histories_are_run_journals};
use dc_scene::history_is_of_the_machine;
use dc_sound::the_start_is_sound;

/// What a run of the machine of an image and a script leaves has a text that such a run may write. The emptied lists of the objects at the start have room for
/// the objects at the end.
pub(crate) fn ended_runs_have_texts()
    ensures { (image : Image) (lines : List ScriptLine) (st : Staged) (kinds : Room) (r : Ended) → IsValid image → IsValidScript (settings_of image) lines →
        IsStageOf image lines st → IsOpened st → HasRoom (core_start image lines) kinds → HasRun st r → HasText image lines kinds r }
{
    the_start_is_sound();
    histories_keep_sound();
    lawful_histories_are_run_journals();
    entries_are_in_range();
    histories_are_short();
    history_is_of_the_machine::<EitherKernel>();
}
