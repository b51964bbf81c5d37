//! How many entries each actor makes at most, in any order of the actors' turns. Each law is the contract of a function that does nothing.
#![tactic(auto)]

ghost use Rattle.std.specs.Prelude.{ℕ, ◌+◌, ◌*◌, ◌<◌, ◌≤◌, List, length};
ghost use Rattle.dc_base.specs.declared.commands.ScriptLine.{ScriptLine};
ghost use Rattle.dc_base.specs.declared.entries.Entry.{Entry};
ghost use Rattle.dc_base.specs.declared.images.Image.{Image};
ghost use Rattle.dc_base.specs.Histories.{IsLawfulHistory};
ghost use Rattle.dc_base.specs.Limits.{most_slices_in_all};
ghost use Rattle.dc_base.specs.States.{settings_of, core_start};
ghost use Rattle.dc_base.specs.Valid.{IsValid, IsValidScript};
ghost use Rattle.dc_counts.specs.Made.{made_by};

use dc_sound::{entries_keep_sound, the_start_is_sound};

/// In a lawful history of the machine of a valid image and script, a core makes at most as many entries as it has slices, and two for each line of the script.
pub fn cores_make_few_entries()
    ensures { (image : Image) (lines : List ScriptLine) (history : List (ℕ × Entry)) (c : ℕ) → IsValid image → IsValidScript (settings_of image) lines →
        IsLawfulHistory (settings_of image) (core_start image lines) history → c < length image.cores →
        made_by c history ≤ image.slices + 2 * length lines }
{
    the_start_is_sound();
    entries_keep_sound();
}

/// The script, whose number comes after those of the cores, makes at most three entries for each of its lines.
pub fn the_script_makes_few_entries()
    ensures { (image : Image) (lines : List ScriptLine) (history : List (ℕ × Entry)) → IsValid image → IsValidScript (settings_of image) lines →
        IsLawfulHistory (settings_of image) (core_start image lines) history → made_by (length image.cores) history ≤ 3 * length lines }
{
    the_start_is_sound();
    entries_keep_sound();
}

/// All actors together make at most as many entries as all cores may have slices, and five for each line of the script.
pub fn histories_are_short()
    ensures { (image : Image) (lines : List ScriptLine) (history : List (ℕ × Entry)) → IsValid image → IsValidScript (settings_of image) lines →
        IsLawfulHistory (settings_of image) (core_start image lines) history → length history ≤ most_slices_in_all + 5 * length lines }
{
    the_start_is_sound();
    entries_keep_sound();
}
