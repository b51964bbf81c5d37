//! The theorem over the definitions: every run of the machine with cores, with cores, kernels, slots and handovers struck out, is a run of the machine of
//! blocks.
#![tactic(auto)]

ghost use Rattle.std.specs.Prelude.{◌≡◌, ◌↔◌, List, Some};
ghost use Rattle.dc_base.specs.declared.images.Image.{Image};
ghost use Rattle.dc_base.specs.declared.actions.Actor.{Actor};
ghost use Rattle.dc_base.specs.declared.actions.Action.{Action};
ghost use Rattle.dc_base.specs.declared.commands.ScriptLine.{ScriptLine};
ghost use Rattle.dc_base.specs.declared.entries.Entry.{Entry};
ghost use Rattle.dc_base.specs.declared.reports.ReportLine.{ReportLine};
ghost use Rattle.dc_base.specs.States.{State, settings_of, core_start};
ghost use Rattle.dc_base.specs.CoreRuns.{core_run, core_run_from};
ghost use Rattle.dc_base.specs.StandsFor.{StandsFor};
ghost use Rattle.dc_base.specs.Runs.{Seen, run_from, run};
ghost use Rattle.dc_base.specs.Telling.{terms_at};
ghost use Rattle.dc_base.specs.Report.{report_lines};
ghost use Rattle.dc_base.specs.Headline.{IsReportedRun};
ghost use Rattle.dc_base.specs.Openings.{IsOpening, seen_opened, IsReportedRunFrom};
ghost use Rattle.dc_base.specs.Sound.{IsSound};
ghost use Rattle.dc_base.specs.Valid.{IsValid, IsValidScript};

use dc_refine::{openings_run, runs_are_reported, starts_are_openings};
use dc_sound::{sound_keeps, the_start_is_sound};

/// For every valid image and script and every schedule, the journal is a run of the image and the script, and the report shows the last state of that run,
/// each block once with its holder; the last state is sound, and stands for the last blocks of the run.
pub fn every_run_is_reported()
    ensures reported { (image : Image) (script : List ScriptLine) (schedule : List (Actor × Action)) → IsValid image →
        IsValidScript (settings_of image) script →
        IsReportedRun image script (core_run image script schedule).journal (report_lines (core_run image script schedule).state) }
    ensures stands { (image : Image) (script : List ScriptLine) (schedule : List (Actor × Action)) → IsValid image → IsValidScript (settings_of image) script →
        (seen : Seen) → run image script (core_run image script schedule).journal ≡ Some seen → StandsFor (core_run image script schedule).state seen.blocks }
    ensures sound { (image : Image) (script : List ScriptLine) (schedule : List (Actor × Action)) → IsValid image → IsValidScript (settings_of image) script →
        IsSound (core_run image script schedule).state }
{
    the_start_is_sound();
    sound_keeps();
    runs_are_reported();
}

/// The same from every opening: the start of an image is one of these.
pub fn every_run_of_an_opening_is_reported()
    ensures reported { (s : State) (schedule : List (Actor × Action)) → IsOpening s →
        IsReportedRunFrom s (core_run_from s schedule).journal (report_lines (core_run_from s schedule).state) }
    ensures stands { (s : State) (schedule : List (Actor × Action)) → IsOpening s →
        (seen : Seen) → run_from (terms_at s) s.script.lines (seen_opened s) (core_run_from s schedule).journal ≡ Some seen →
        StandsFor (core_run_from s schedule).state seen.blocks }
    ensures sound { (s : State) (schedule : List (Actor × Action)) → IsOpening s → IsSound (core_run_from s schedule).state }
    ensures image { (image : Image) (script : List ScriptLine) → IsValid image → IsValidScript (settings_of image) script →
        IsOpening (core_start image script) }
    ensures same { (image : Image) (script : List ScriptLine) (journal : List Entry) (report : List ReportLine) → IsValid image →
        IsValidScript (settings_of image) script →
        IsReportedRun image script journal report ↔ IsReportedRunFrom (core_start image script) journal report }
{
    the_start_is_sound();
    sound_keeps();
    openings_run();
    starts_are_openings();
}
